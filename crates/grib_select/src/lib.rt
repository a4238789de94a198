//! The keys of the fields of a message of edition 2: what they are, and messages with other values of
//! them or with one field alone.
#![tactic(auto)]

mod changing;
mod cutting;
pub mod laws;
mod matching;
mod number;
mod value;

pub use changing::{SetFault, changed_front, set_keys};
pub use cutting::single;
pub use grib_keys::{Change, Choice, Choices, Key, Test, Value, Wanted};
pub use matching::matches;
pub use value::key_value;
