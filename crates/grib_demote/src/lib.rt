//! Demotion: a field of a message of edition 2 as a message of edition 1 with the same values, or the first thing
//! of it that would be lost.
#![tactic(auto)]

mod checking;
mod date;
mod demoting;
mod demotion;
mod field;
mod grid;
mod level;
mod product;
mod tested;
mod time;
mod values;
mod word;

pub use demoting::demote;
pub use demotion::DemoteFault;
pub use level::Level;
pub use tested::Tested;
pub use time::TimeRange;
