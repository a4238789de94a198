//! Why no message is read.

ghost use Rattle.grib.specs.declared.fault.ReadError.TheVariants.{Memory};

use grib_base::Fault;
use std::alloc::AllocError;
use thiserror::Error;

/// Why no message is read.
#[derive(Clone, Copy, Debug, PartialEq, Eq, Error)]
pub enum ReadError {
    /// The octets do not begin with `GRIB`, or a reader stands at no message.
    #[error("no message begins here")]
    NoMessage,
    /// A message begins at this octet of the input, counted from 0, and is refused.
    #[error("message at {place}: {fault}")]
    Refused { place: u64, fault: Fault },
    /// There is no memory.
    #[error("out of memory")]
    Memory,
    /// The source of a reader failed.
    #[error("the input cannot be read")]
    Source,
    /// A reader took 18,446,744,073,709,551,615 octets, and the input goes on.
    #[error("the input is too long")]
    TooLong,
}

impl From<AllocError> for ReadError {
    ghost use Rattle.std.specs.Prelude.{◌≡◌};

    ghost from_gives = { λ _ error. error ≡ Memory };

    fn from(_: AllocError) -> ReadError {
        ReadError::Memory
    }
}
