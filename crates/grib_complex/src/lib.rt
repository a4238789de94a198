//! Complex packing, with and without spatial differencing: templates 5.2 and 5.3.
#![tactic(auto)]

mod below;
mod coding;
mod constant;
mod difference_coding;
mod differencing;
mod grouping;
pub mod laws;
mod packed;
mod packing;
mod told_differences;
mod unpacking;
mod writing;

pub use grib_codes::{PointWords, ToldCodes};
pub use grib_complex_reading::{
    Complex, ComplexReading, PlainValues, complex_of, length_of_section, read_complex, take_numbers,
};
pub use grib_packing::Layout;
pub use packed::{pack_codes, pack_complex, pack_spatial};
pub use packing::{ComplexPacking, SpatialPacking};
