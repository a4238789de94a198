//! Items that are read from coded blocks, and the numbers that their codes stand for (CCSDS 121.0-B, lossless data
//! compression; WMO-No. 306, Volume I.2, FM 92 GRIB edition 2, templates 5.42 and 7.42), in no memory but that of one block.
#![tactic(auto)]

mod bits_left;
mod item;
pub mod laws;
mod lists;
mod numbers;
mod pairs;
mod taking;
mod unmapping;

pub use bits_left::BitsLeft;
pub use item::{Head, Kind, read_item, spread_second};
pub use numbers::Kept;
pub use taking::{ReadItem, is_referred, skip_padding, take_read};
pub use unmapping::{unmap, unmap_block};
