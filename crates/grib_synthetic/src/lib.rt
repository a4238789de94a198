//! The message that is made from a number: one field of any size, for trials and measurements.
#![tactic(auto)]

pub mod laws;
mod making;
mod points;
mod summary;

pub use making::made_message;
pub use summary::{Summary, made_summary};
