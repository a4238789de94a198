//! Blocks of coded numbers as they are written (CCSDS 121.0-B, lossless data compression; WMO-No. 306, Volume I.2, FM 92
//! GRIB edition 2, data template 7.42): zero blocks in runs as long as possible, each other block as the item of the fewest
//! bits. The standard leaves the choice to the coder: this one finds the least, by a walk over k from a good guess, and one
//! rule decides among items of the same bits. What its definitions say of worked streams is computed by [`worked`].
#![tactic(auto)]

mod blocks;
mod choosing;
mod items;
pub mod laws;
mod mapping;
mod sizes;
mod splitting;
mod sums;
pub mod worked;
mod writer;
mod writing;
mod zero_runs;

pub use choosing::choose;
pub use mapping::{map, map_block};
pub use sizes::bits_of_blocks;
pub use sums::{high_sum_of, pair_sum_of};
pub use writer::write_blocks;
pub use zero_runs::{is_zero_block, number_of_run, room_of_run};
