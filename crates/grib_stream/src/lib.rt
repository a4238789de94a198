//! The messages of an input, in whatever pieces it comes: how the next is found, read or judged as it comes, what answers
//! them, and what is answered. It knows no command.
#![tactic(auto)]

mod gathering;
mod hearing;
pub mod laws;
mod listening;
mod outcome;
mod performer;
mod place;
mod searching;
mod window;

pub use gathering::{LIMIT, Rest, gather, probe, read_on};
pub use grib_reasons::{Cause, Kept, Loss, TableRefusal};
pub use hearing::{HearStop, Hearer};
pub use listening::answer_heard;
pub use outcome::{FileRefusal, Outcome, is_truncated};
pub use performer::{Extent, Performed, Performer, Whole};
pub use place::{Place, Totals};
pub use searching::octets_before_mark;
pub use window::{READ, Window};
