//! Whether the reference time of a message is a date and time.
#![tactic(auto)]

mod rule;
mod time;

pub use rule::Dates;
pub use time::{ReferenceTime, is_valid_time1, is_valid_time2};
