//! Repacking: a message with the same values in another packing.
#![tactic(auto)]

mod column;
mod fault;
mod field;
mod groups;
pub mod laws;
mod lengths;
mod plain;
mod repacking;
mod values;

pub use fault::RepackFault;
pub use field::pack_field;
pub use grib_packing::RepackTarget;
pub use groups::point_words;
pub use lengths::{kept_length, packed_length};
pub use plain::pack_simply;
pub use repacking::repack;
