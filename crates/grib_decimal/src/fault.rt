//! Why a value has no text.

ghost use Rattle.std.specs.Prelude.{◌≡◌};
ghost use Rattle.grib_decimal.specs.declared.fault.DecimalFault.TheVariants.{Memory};

use std::alloc::AllocError;
use thiserror::Error;

/// Why a value has no text.
#[derive(Clone, Copy, Debug, PartialEq, Eq, Error)]
pub enum DecimalFault {
    /// The value is not 0, and as a fraction of whole numbers it has one of 2 ^ 126 or more.
    #[error("the value is too large, or too small, for a decimal")]
    Range,
    /// There is no memory.
    #[error("out of memory")]
    Memory,
}

impl From<AllocError> for DecimalFault {
    ghost from_gives = { λ _ fault. fault ≡ Memory };

    fn from(_: AllocError) -> DecimalFault {
        DecimalFault::Memory
    }
}
