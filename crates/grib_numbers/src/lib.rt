//! Numbers and degrees as arguments write them.
#![tactic(auto)]

mod degrees;
pub mod laws;
mod numbers;

pub use degrees::{are_degrees, degrees_of};
pub use numbers::{is_between, number_of, signed_number};
