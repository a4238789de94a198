//! CCSDS packing (WMO-No. 306, Volume I.2, FM 92 GRIB edition 2, templates 5.42 and 7.42; CCSDS 121.0-B): columns that are
//! packed in blocks, and the values of a whole Section 7.
#![tactic(auto)]

pub mod laws;
mod packed;
mod packing;
mod unpacking;
mod writing;

pub use grib_block_feeding::{Coded, coded_of, fault_of_blocks, keep_zeros};
pub use packed::{pack_coded, pack_coded_below};
pub use packing::CodedPacking;
