//! Why a message is not compared.

ghost use Rattle.std.specs.Prelude.{◌≡◌};
ghost use Rattle.grib_compare.specs.declared.stop.CompareStop.TheVariants.{Memory};

use grib_stream::Cause;
use std::alloc::AllocError;

/// Why a message is not compared.
#[derive(Clone, Copy, Debug)]
pub(crate) enum CompareStop {
    /// The values of one of its fields or of a counterpart cannot be read.
    Kept(Cause),
    /// There is no memory.
    Memory,
}

impl From<AllocError> for CompareStop {
    ghost from_gives = { λ _ stop. stop ≡ Memory };

    fn from(_: AllocError) -> CompareStop {
        CompareStop::Memory
    }
}
