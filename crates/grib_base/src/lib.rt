//! What all readers and writers of GRIB messages share: refusals and the rules that decide them, sections,
//! codes and lists.
#![tactic(auto)]

mod code;
mod fault;
mod limits;
mod list;
mod profile;
mod room;
mod section;

pub use code::Code;
pub use fault::{Fault, ReadFault, Reason, Refusal};
pub use limits::{MOST_OCTETS, MOST_POINTS};
pub use list::List;
pub use profile::Profile;
pub use room::push_within;
pub use section::Section;
