//! The arguments of the command `grib`: how they are read, and the job that they ask for.
#![tactic(auto)]

mod asking;
mod changes;
mod choices;
mod choosing;
mod columns;
mod command;
mod crop;
mod editions;
mod job;
pub mod laws;
mod policy;
mod reading;
mod values;
mod wanted;

pub use command::Command;
pub use crop::{has_a_side, has_an_edge};
pub use editions::{
    has_first, is_any_key, is_asked, is_key_to_set, is_key1, is_key1_to_set, is_mixed, is_on_first,
};
pub use job::{JobFault, job_of};
pub use policy::{policy_of, profile_of};
pub use reading::{has_name, has_word, read_words, takes};
