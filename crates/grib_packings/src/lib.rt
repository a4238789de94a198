//! The packings of the profile as one: what Section 5 says of a field, and its values from Section 7, read whole or
//! as its octets come.
//!
//! A packing more is a crate of its own, a rule in the list of the packings in grib_packing, an arm in
//! [`Representation`] and one in what reads Section 7. A field with another packing is opaque: its values are not
//! read.
#![tactic(auto)]

mod coded_reading;
mod data_representation;
mod feeding;
pub mod laws;
mod reading;
mod representation;
mod simple_reading;

pub use data_representation::DataRepresentation;
pub use feeding::{Feeder, Feeding};
pub use representation::Representation;
