//! What is read of complex packing, with and without spatial differencing: Section 5, and the values as the octets of
//! Section 7 come (templates 5.2, 5.3, 7.2 and 7.3).
#![tactic(auto)]

mod alike;
mod noted;
mod plain_values;
mod range;
mod representation;
mod running;
mod runs;
mod same;
mod section;
mod stages;
mod steady;
mod telling;
mod values;

pub use plain_values::take_numbers;
pub use representation::{Complex, accepted_complex, complex_of, read_complex};
pub use running::{Running, ScaledRange};
pub use section::length_of_section;
pub use stages::ComplexReading;
pub use steady::Steady;
pub use values::PlainValues;
