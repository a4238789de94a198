//! The codes of the points of a field, 32 bits for each, and what they span: what packing in groups chooses and writes.
#![tactic(auto)]

mod codes;
mod field_codes;
mod masked;
mod point_words;
mod span;
mod told_codes;
mod words;

pub use codes::{Codes, is_number, word_of};
pub use field_codes::FieldCodes;
pub use point_words::PointWords;
pub use span::Span;
pub use told_codes::ToldCodes;
pub use words::Words;
