//! Fields as arrays in the form .npy 1.0 of NumPy: the header of an array, and the octets of its values; and values as
//! numbers of the machine.
#![tactic(auto)]

mod factors;
mod header;
mod number;
mod scale;
mod shape;
mod words;

pub use header::append_header;
pub use number::nearest_f64;
pub use scale::ArrayScale;
pub use shape::Shape;
