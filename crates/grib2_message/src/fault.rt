//! Why a message was not put together.

ghost use Rattle.std.specs.Prelude.{◌≡◌};
ghost use Rattle.grib2_message.specs.declared.fault.AssembleFault.TheVariants.{Memory};

use std::alloc::AllocError;
use thiserror::Error;

/// Why a message was not put together.
#[derive(Clone, Copy, Debug, PartialEq, Eq, Error)]
pub enum AssembleFault {
    /// It would have this many octets, more than 268,435,456.
    #[error("a message of {0} octets is too long")]
    TooLong(u64),
    /// There is no memory for it.
    #[error("out of memory")]
    Memory,
}

impl From<AllocError> for AssembleFault {
    ghost from_gives = { λ _ fault. fault ≡ Memory };

    fn from(_: AllocError) -> AssembleFault {
        AssembleFault::Memory
    }
}
