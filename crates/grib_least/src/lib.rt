//! Messages in the fewest octets: each field in the smallest of its forms.
#![tactic(auto)]

mod choosing;
pub mod laws;

pub use choosing::repack_least;
