//! Messages in another order of their points, and boxes of their grids, value for value.
#![tactic(auto)]

mod edit;
mod fault;
pub mod laws;
mod packing;
mod plain;
mod rescanning;

pub use edit::GridEdit;
pub use fault::RescanFault;
pub use rescanning::{crop, edit_message, rescan};
