//! Whether the points of two fields mean the same: the same points are missing, and each value is the same exact number,
//! though the reference value R and the scale factors E and D may differ.
#![tactic(auto)]

mod deciding;
mod digits;
pub mod laws;
mod line;
mod part;
mod points;
mod quick;
mod scale;
mod side;
mod slow;
mod whole;

pub use points::first_difference;
pub use scale::ValueScale;
