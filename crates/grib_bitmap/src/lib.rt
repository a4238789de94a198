//! Bitmaps: Section 6 of edition 2.
#![tactic(auto)]

mod mask;
mod section;
mod words;

pub use grib_base::ReadFault as MaskFault;
pub use mask::{Mask, Run, ones, write_mask};
pub use section::read_mask;
