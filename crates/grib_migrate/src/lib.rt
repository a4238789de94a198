//! Migration: a message of edition 1 as a message of edition 2 with the same values, or the first thing of it
//! that would be lost.
#![tactic(auto)]

mod checking;
pub mod date;
mod grid;
mod labels;
pub mod laws;
mod level;
mod loss;
mod migrating;
mod product;
mod reference;
mod scaled;
mod source;
mod time;
mod values;

pub use grib_reasons::Loss;
pub use grid::true_latitude;
pub use labels::{Local, Member};
pub use level::{Surface, Surfaces, surfaces_at};
pub use loss::MigrateFault;
pub use migrating::{migrate, migrate_with};
pub use time::Unit;
