//! The messages of a stream, read whole or judged as they come, and answered by any command.
#![tactic(auto)]

mod counting;
mod hearing;
mod held;
mod performing;
mod reading;

pub use hearing::SecondHearer;
pub use held::answer_held;
pub use performing::Answering;
pub use reading::{Held, read_held};
