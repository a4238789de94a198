//! Why a message is not migrated.

use grib_reasons::Loss;
use std::alloc::AllocError;
use thiserror::Error;

/// Why a message is not migrated.
#[derive(Clone, Copy, Debug, PartialEq, Eq, Error)]
pub enum MigrateFault {
    /// The first loss.
    #[error("edition 2 has no place for this: {0}")]
    Lost(Loss),
    /// There is no memory.
    #[error("out of memory")]
    Memory,
}

impl From<Loss> for MigrateFault {
    ghost use Rattle.std.specs.Prelude.{◌≡◌};
    ghost use Rattle.grib_migrate.specs.declared.loss.MigrateFault.TheVariants.{Lost};

    ghost from_gives = { λ loss fault. fault ≡ Lost loss };

    fn from(loss: Loss) -> MigrateFault {
        MigrateFault::Lost(loss)
    }
}

impl From<AllocError> for MigrateFault {
    ghost use Rattle.std.specs.Prelude.{◌≡◌};
    ghost use Rattle.grib_migrate.specs.declared.loss.MigrateFault.TheVariants.{Memory};

    ghost from_gives = { λ _ fault. fault ≡ Memory };

    fn from(_: AllocError) -> MigrateFault {
        MigrateFault::Memory
    }
}
