//! What there is to say of the commands, keys, refusals and causes, each by its name.
#![tactic(auto)]

mod elsewhere;
mod escaped;
pub mod laws;
mod nearest;
mod table;
mod topic;

pub use escaped::shown;
pub use nearest::{nearest_command, nearest_key};
pub use topic::told_of;
