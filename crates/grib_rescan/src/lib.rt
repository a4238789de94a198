//! Other orders and boxes of the points of a grid, value for value.
#![tactic(auto)]

mod bounds;
mod cause;
mod column;
pub mod laws;
mod places;
mod points;
mod scanning;
mod section;
mod source;

pub use bounds::{Bounds, area_in};
pub use cause::{GridCause, crop_cause, rescan_cause, within_cause};
pub use column::{crop_column, rescan_column};
pub use points::{Area, crop_points, rescan_columns, rescan_points};
pub use scanning::Scanning;
pub use section::{crop_section, rescan_section};
pub use source::{GridPoints, Listed, Numbers};
