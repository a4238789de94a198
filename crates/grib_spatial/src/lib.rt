//! Spatial differences: what they tell, one number after another or whole, and the way back.
#![tactic(auto)]

mod differences;
mod differencing;
pub mod laws;
mod trail;
mod undoing;

pub use differences::Differences;
pub use differencing::difference;
pub use grib_complex_reading::{Running, ScaledRange, Steady};
pub use trail::{FirstAndLeast, Trail};
pub use undoing::{UndoFault, undo};
