//! What is written of numbers in coded blocks has the fewest bits of all that is read as these numbers (CCSDS 121.0-B,
//! lossless data compression; WMO-No. 306, Volume I.2, FM 92 GRIB edition 2, data template 7.42).
#![tactic(auto)]

pub mod laws;
pub mod worked;
