//! The keys of a field: numbers in the sections of a message of either edition, by name, and what is asked of them.
#![tactic(auto)]

mod condition;
mod key;
mod key1;
pub mod laws;
mod table;
mod wanted;

pub use condition::{Change, Value};
pub use key::Key;
pub use key1::Key1;
pub use table::{Kind, Layout, Octets, Place, Row};
pub use wanted::{Choice, Choices, Test, Wanted};
