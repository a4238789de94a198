//! Section 0, the frame of the sections that follow, and Section 1 of edition 2.
#![tactic(auto)]

mod frame;
mod identification;
mod indicator;
mod instant;
mod refusing;
mod section;

pub use frame::Frame;
pub use identification::{Identification, read_identification, write_identification};
pub use indicator::{Head, read_head};
pub use instant::instant_shift;
pub use section::write_section;
