//! What is read of simple packing: numbers of one width that stand one after another (template 7.0).
#![tactic(auto)]

mod numbers;
mod simple;
mod words;

pub use numbers::{masked_points, unpack_numbers, unpack_points};
pub use simple::{check_simple, is_too_short, unpack_simple};
pub use words::{number_at, number_words};
