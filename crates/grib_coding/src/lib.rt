//! The items that coded blocks consist of, what they tell of numbers, and what is written of these: the definitions of
//! CCSDS 121.0-B, lossless data compression, as templates 5.42 and 7.42 have it (WMO-No. 306, Volume I.2, FM 92 GRIB
//! edition 2). What they say of worked streams is computed by [`worked`].
#![tactic(auto)]

mod choice;
mod coding;
mod fault;
pub mod laws;
pub mod worked;

pub use choice::Choice;
pub use coding::Coding;
pub use fault::BlockFault;
