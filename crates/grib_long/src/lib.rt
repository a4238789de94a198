//! Whole numbers of any length: products with powers of ten, quotients by them, and their first digits.
//!
//! A number is held by its digits to base 2^32.
#![tactic(auto)]

mod building;
mod leading;
mod long;
mod product;
mod quotient;

pub use building::long_sum;
pub use leading::Leading;
pub use long::Long;
pub use quotient::Quotient;
