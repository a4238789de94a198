//! `compare`: the fields of an input beside the fields of a file.
#![tactic(auto)]

mod comparing;
mod comparison;
mod file_message;
mod lines;
mod octets;
mod points;
mod readable;
mod stop;
mod words;

pub use comparing::Comparing;
pub use comparison::Comparison;
