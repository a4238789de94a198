//! What can be asked of messages, and what an answer to a message is: what was written, or why there is none.
#![tactic(auto)]

mod answered;
mod answerer;
mod ending;
mod job;
mod name;
mod notes;
mod page;
mod writing;

pub use answered::{Answered, printed, unreadable, written};
pub use answerer::{Answerer, ByOutput, Writer};
pub use ending::Ending;
pub use job::{Changes, Changes1, Conditions, Conditions1, Job};
pub use name::Name;
pub use notes::{
    copied_line, file_note, kept_line, kept_note, made_note, passed_note, surfaces_note,
    table_note, usage_note,
};
pub use page::Page;
pub use writing::{write_counted, write_whole};
