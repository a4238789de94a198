//! Why a message is not put in another order, or no subarea is cut out of it.

ghost use Rattle.std.specs.Prelude.{◌≡◌, ℕ, Some};
ghost use Rattle.grib2_message.specs.Assembled.{IsAssembleFault};
ghost use Rattle.grib_reorder.specs.declared.fault.RescanFault.TheVariants.{Memory};
ghost use Rattle.grib_reorder.specs.Rescanned.{OfGrid, length_misfit};
ghost use Rattle.grib_reorder.specs.Faults.{IsRescanFault};

use grib_rescan::GridCause;
use grib2_message::AssembleFault;
use std::alloc::AllocError;
use thiserror::Error;

/// Why a message is not put in another order, or no subarea is cut out of it. Fields and points count from 1.
/// Nothing is rounded or cut.
#[derive(Clone, Copy, Debug, PartialEq, Eq, Error)]
pub enum RescanFault {
    /// The grid of this field is not one of template 3.0 without a list of rows.
    #[error("field {field}: the grid is not a regular one of latitude and longitude")]
    GridKind { field: u32 },
    /// The scanning mode of this field is not one that can be read, or is not 0 where a subarea is cut out.
    #[error("field {field}: the scanning mode")]
    ScanMode { field: u32 },
    /// The subarea does not lie in the grid of this field, or the points within the bounds are none or no box of it.
    #[error("field {field}: the box is not in the grid")]
    OutsideBox { field: u32 },
    /// The first and the last point of this field are not those that the increments give.
    #[error("field {field}: the increments do not lead from the first point to the last")]
    Increments { field: u32 },
    /// The scaled integer of this point is negative or too great for the packing of the field.
    #[error("field {field} point {point}: the scaled number is out of range")]
    OutOfRange { field: u32, point: u32 },
    /// A first value, the minimum or a code of the spatial differences of this field has no place.
    #[error("field {field}: the spatial differences are out of range")]
    DifferenceRange { field: u32 },
    /// The new message would have this many octets, which are more than 268,435,456.
    #[error("the message would have {0} octets")]
    OutputTooLong(u64),
    /// There is no memory.
    #[error("out of memory")]
    Memory,
}

impl RescanFault {
    /// Why the grid of this field is not edited.
    pub(crate) fn of_grid(field: u32, cause: GridCause) -> RescanFault
        ensures { IsRescanFault (Some (OfGrid field cause)) result }
    {
        match cause {
            GridCause::GridKind => RescanFault::GridKind { field },
            GridCause::ScanMode => RescanFault::ScanMode { field },
            GridCause::OutsideBox => RescanFault::OutsideBox { field },
            GridCause::Increments => RescanFault::Increments { field },
        }
    }
}

impl From<AllocError> for RescanFault {
    ghost from_gives = { λ _ fault. fault ≡ Memory };

    fn from(_: AllocError) -> RescanFault {
        RescanFault::Memory
    }
}

impl From<AssembleFault> for RescanFault {
    ghost from_gives = { λ fault rescan. (total : ℕ) → IsAssembleFault total fault
        → IsRescanFault (length_misfit total) rescan };

    fn from(fault: AssembleFault) -> RescanFault {
        match fault {
            AssembleFault::TooLong(total) => RescanFault::OutputTooLong(total),
            AssembleFault::Memory => RescanFault::Memory,
        }
    }
}
