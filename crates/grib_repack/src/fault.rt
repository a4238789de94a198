//! Why a message is not repacked.

ghost use Rattle.std.specs.Prelude.{◌≡◌, ℕ, Option, option_map};
ghost use Rattle.grib_packing.specs.Misfits.{Misfit};
ghost use Rattle.grib_packing.specs.Written.{IsPackFault};
ghost use Rattle.grib2_message.specs.Assembled.{IsAssembleFault};
ghost use Rattle.grib_repack.specs.declared.fault.RepackFault.TheVariants.{Memory};
ghost use Rattle.grib_repack.specs.Repacked.{in_field, length_misfit};
ghost use Rattle.grib_repack.specs.Faults.{IsRepackFault};

use grib_packing::PackFault;
use grib2_message::AssembleFault;
use std::alloc::AllocError;
use thiserror::Error;

/// Why a message is not repacked. Fields and points count from 1. Nothing is rounded or cut.
#[derive(Clone, Copy, Debug, PartialEq, Eq, Error)]
pub enum RepackFault {
    /// This point is secondary missing, which simple packing cannot represent.
    #[error("field {field} point {point}: secondary missing")]
    SecondaryMissing { field: u32, point: u32 },
    /// The scaled integer of this point is negative or too great for the packing.
    #[error("field {field} point {point}: the scaled number is out of range")]
    OutOfRange { field: u32, point: u32 },
    /// A first value, the minimum or a code of the spatial differences of this field has no place.
    #[error("field {field}: the spatial differences are out of range")]
    DifferenceRange { field: u32 },
    /// The new message would have this many octets, which are more than 268,435,456.
    #[error("the message would have {0} octets")]
    OutputTooLong(u64),
    /// There is no memory.
    #[error("out of memory")]
    Memory,
}

impl RepackFault {
    /// Why this field is not packed.
    pub(crate) fn in_field(field: u32, fault: PackFault) -> RepackFault
        ensures { (expected : Option Misfit) → IsPackFault expected fault
            → IsRepackFault (option_map (in_field field) expected) result }
    {
        match fault {
            PackFault::SecondaryMissing(point) => RepackFault::SecondaryMissing { field, point },
            PackFault::OutOfRange(point) => RepackFault::OutOfRange { field, point },
            PackFault::DifferenceRange => RepackFault::DifferenceRange { field },
            PackFault::Memory => RepackFault::Memory,
        }
    }
}

impl From<AllocError> for RepackFault {
    ghost from_gives = { λ _ fault. fault ≡ Memory };

    fn from(_: AllocError) -> RepackFault {
        RepackFault::Memory
    }
}

impl From<AssembleFault> for RepackFault {
    ghost from_gives = { λ fault repack. (total : ℕ) → IsAssembleFault total fault
        → IsRepackFault (length_misfit total) repack };

    fn from(fault: AssembleFault) -> RepackFault {
        match fault {
            AssembleFault::TooLong(total) => RepackFault::OutputTooLong(total),
            AssembleFault::Memory => RepackFault::Memory,
        }
    }
}
