//! Why a field is not demoted.

ghost use Rattle.std.specs.Prelude.{◌≡◌};
ghost use Rattle.grib_demote.specs.declared.demotion.DemoteFault.TheVariants as faults;

use grib_reasons::Demotion;
use std::alloc::AllocError;
use thiserror::Error;

/// Why a field is not demoted.
#[derive(Clone, Copy, Debug, PartialEq, Eq, Error)]
pub enum DemoteFault {
    /// The first loss.
    #[error("edition 1 has no place for this: {0}")]
    Lost(Demotion),
    /// There is no memory.
    #[error("out of memory")]
    Memory,
}

impl From<Demotion> for DemoteFault {
    ghost from_gives = { λ loss fault. fault ≡ faults.Lost loss };

    fn from(loss: Demotion) -> DemoteFault {
        DemoteFault::Lost(loss)
    }
}

impl From<AllocError> for DemoteFault {
    ghost from_gives = { λ _ fault. fault ≡ faults.Memory };

    fn from(_: AllocError) -> DemoteFault {
        DemoteFault::Memory
    }
}
