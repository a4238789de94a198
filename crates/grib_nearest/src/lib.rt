//! Exact values as numbers of a machine: the word of IEEE 754 binary64 or binary32 whose number is nearest, ties to even.
#![tactic(auto)]

mod exact;
mod format;
mod fraction;
pub mod laws;
mod leading;
mod number;
mod sums;

pub use exact::exact_word;
pub use format::Format;
pub use fraction::{binary32, binary64};
pub use number::{FarSum, Number};
