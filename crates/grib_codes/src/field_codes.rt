//! The codes of a field as they are kept.

ghost use Rattle.std.specs.Prelude.{◌≡◌, ◌≤◌, length};
ghost use Rattle.grib_codes.specs.FieldCodes.{codes_in};

use crate::words::Words;
use grib_base::Code;

/// The codes of a field.
#[derive(Debug, Drop)]
pub enum FieldCodes {
    /// One for each point.
    Each(Words),
    /// The code that all points have, and how many points there are.
    Same(Code, u32),
}

impl FieldCodes {
    /// How many there are.
    pub fn count(&self) -> u32
        requires { length (codes_in self.now) ≤ 33554432 }
        ensures { result ≡ length (codes_in self.now) }
    {
        match self {
            FieldCodes::Each(words) => words.len() as u32,
            FieldCodes::Same(_code, count) => *count,
        }
    }
}
