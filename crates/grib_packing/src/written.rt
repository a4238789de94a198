//! What a packing writes.

ghost use Rattle.grib_packing.specs.declared.written.PackFault.TheVariants.{Memory};
ghost use Rattle.std.specs.Prelude.{◌≡◌};

use grib_base::List;
use std::alloc::AllocError;
use thiserror::Error;

/// Sections 5, 6 and 7 of a field, each whole: its length, its number and its contents.
#[derive(Debug, Drop)]
pub struct Packed {
    pub section5: List<u8>,
    pub section6: List<u8>,
    pub section7: List<u8>,
}

/// Why a column is not packed. Points count from 1. Nothing is rounded or cut.
#[derive(Clone, Copy, Debug, PartialEq, Eq, Error)]
pub enum PackFault {
    /// This point is secondary missing, which the packing cannot tell.
    #[error("point {0}: secondary missing")]
    SecondaryMissing(u32),
    /// The scaled integer of this point is negative or too great.
    #[error("point {0}: the scaled number is out of range")]
    OutOfRange(u32),
    /// A first value, the minimum or a code of the spatial differences has no place.
    #[error("the spatial differences are out of range")]
    DifferenceRange,
    /// There is no memory.
    #[error("out of memory")]
    Memory,
}

impl From<AllocError> for PackFault {
    ghost from_gives = { λ _ fault. fault ≡ Memory };

    fn from(_error: AllocError) -> PackFault {
        PackFault::Memory
    }
}
