//! A run over the items of an input: its messages, and what is refused. Under a policy it ends at the first refusal or
//! message that is not changed, or skips it and notes a line.
#![tactic(auto)]

mod answering;
mod counting;
mod deciding;
mod heading;
mod hearing;
pub mod laws;
mod noting;
mod policy;
mod running;
mod writing;

pub use answering::answer_items;
pub use policy::{Instead, ItemTotals, Policy};
