//! The fields of a file that stands on a shelf, one after another. The messages of a file are found as those of an
//! input are.
#![tactic(auto)]

mod entries;
mod field;
mod file;
mod finding;
mod reading;
mod stop;

pub use field::FileField;
pub use file::GribFile;
pub use reading::read_file;
pub use stop::FileStop;
