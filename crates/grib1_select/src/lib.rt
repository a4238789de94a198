//! The numbers of Section 1 of a message of edition 1: what is asked of them, and messages with other values of them.
#![tactic(auto)]

mod changing;
mod condition;
pub mod laws;
mod matching;

pub use changing::{SetFault1, set_keys1};
pub use condition::{Change1, Wanted1};
pub use matching::matches1;
