//! What is said of two fields.

ghost use Rattle.std.specs.Prelude.{◌≡◌, string_bytes, IfOk};
ghost use Rattle.grib_compare.specs.Fields as definitions;

use std::alloc::{AllocError, Global};

/// What is said of two fields. Points and octets count from 1.
#[derive(Clone, Copy, Debug, PartialEq, Eq)]
pub enum Comparison {
    /// They are the same.
    Same,
    /// They have these counts of points.
    Shape { here: u64, there: u64 },
    /// This point is the first that does not mean the same.
    Differs { point: u64 },
    /// This octet of this section is the first that is not the same.
    Section { section: u8, octet: u64 },
}

impl Comparison {
    /// How many fields differ: this one, or none.
    pub(crate) fn differing(&self) -> u32
        ensures value { result ≡ definitions.differing self.now }
    {
        match self {
            Comparison::Same => 0,
            _ => 1,
        }
    }

    /// The line on a field, counted from 1, of the message with this number.
    ///
    /// # Errors
    ///
    /// There is no memory.
    pub(crate) fn line(&self, alloc: Global, message: u64, field: u32) -> Result<String, AllocError>
        ensures { IfOk result (λ line. string_bytes line ≡ definitions.line_of message field self.now) }
    {
        match *self {
            Comparison::Same => format!(in alloc; "{message}.{field} same\n"),
            Comparison::Shape { here, there } => {
                format!(in alloc; "{message}.{field} shape {here} {there}\n")
            }
            Comparison::Differs { point } => {
                format!(in alloc; "{message}.{field} differs point {point}\n")
            }
            Comparison::Section { section, octet } => {
                format!(in alloc; "{message}.{field} section {section} octet {octet}\n")
            }
        }
    }
}
