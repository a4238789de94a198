//! Simple packing: template 5.0.
#![tactic(auto)]

mod common;
pub mod laws;
mod packed;
mod packing;
mod repeated;
mod survey;
mod writing;

pub use common::common_point;
pub use grib_packing::{
    Column, PackFault, Packed, Packing, Point, Simple, no_bitmap, octets_written, read_simple,
    room_for, write_head, write_numbers,
};
pub use grib_simple_reading::{
    check_simple, is_too_short, masked_points, number_words, unpack_numbers, unpack_points,
    unpack_simple,
};
pub use packed::{MOST_NUMBER, bitmap_octets};
pub use packing::SimplePacking;
pub use survey::Survey;
pub use writing::{bitmap_section, present_bit, representation_section};
