//! A message of edition 2 that is judged as its octets come, in memory that does not grow with the message.
#![tactic(auto)]

mod arrival;
mod data;
mod head;
mod kept;
mod look;
mod state;

pub use arrival::{Arrival, ArrivalStop};
pub use grib2_message::FieldSummary;
