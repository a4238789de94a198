//! Grids: Section 3 of edition 2.
#![tactic(auto)]

mod grid;
pub mod laws;
mod opaque;
mod reading;
mod rules;
mod templates;
mod writing;

pub use grib_base::ReadFault as GridFault;
pub use grid::{Grid, GridSection};
pub use opaque::{check_grid_under, is_opaque_grid};
pub use reading::{grid_of, read_grid};
pub use rules::check_grid;
pub use templates::{Gaussian, Lambert, LatLon, Mercator, Polar, Rotation};
pub use writing::write_grid;
