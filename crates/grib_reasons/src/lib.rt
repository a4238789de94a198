//! Why what is asked of a message or of a table is not done.
#![tactic(auto)]

mod cause;
mod demotion;
mod loss;
mod table;

pub use cause::{Cause, Kept};
pub use demotion::Demotion;
pub use loss::Loss;
pub use table::TableRefusal;
