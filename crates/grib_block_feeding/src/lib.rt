//! Fields in CCSDS packing as they are read: what Section 5 says of it, and the numbers of coded blocks whose octets come
//! in pieces (CCSDS 121.0-B, lossless data compression; WMO-No. 306, Volume I.2, FM 92 GRIB edition 2, templates 5.42 and
//! 7.42). No octet is kept and no memory is taken: of an item that began in one piece and ends in another the numbers are
//! kept that are whole.
#![tactic(auto)]

mod feeding;
mod half;
mod pending;
mod reading;
mod representation;
mod section;

pub use feeding::FedBlocks;
pub use representation::{Coded, coded_of};
pub use section::{fault_of_blocks, keep_zeros};
