//! What `help` tells of arguments.
#![tactic(auto)]

mod deeds;
mod faults;
pub mod laws;
mod telling;
mod wants;

pub use telling::{is_on_words, told_of_words};
