//! Columns in the packing that is asked for.

ghost use Rattle.grib_packing.specs.Below.{IsPackedBelow};
ghost use Rattle.grib_packing.specs.Targets.{target_of};
ghost use Rattle.grib_packing.specs.Written.{IsTarget, MayBePacked};

use grib_ccsds::pack_coded_below;
use grib_complex::{pack_complex, pack_spatial};
use grib_packing::{Column, PackFault, Packed, Packing, RepackTarget};
use grib_simple::SimplePacking;
use std::alloc::Global;

/// Sections 5, 6 and 7 of a column in the packing of a target; none where these would have `below` octets or more, which
/// is known before Section 7 is written. `kind` is the type of the original values (WMO-No. 306, Volume I.2, FM 92 GRIB
/// edition 2, code table 5.1).
///
/// # Errors
///
/// The first misfit of the column, or there is no memory.
pub fn pack_column(
    alloc: Global,
    column: &Column,
    kind: u8,
    target: RepackTarget,
    below: Option<u64>,
) -> Result<Option<Packed>, PackFault>
    requires target { IsTarget (target_of target) }
    requires column { MayBePacked column.now }
    ensures { IsPackedBelow (target_of target) column.now kind below result }
{
    match target {
        RepackTarget::Simple => match SimplePacking.pack(alloc, column, kind) {
            Ok(packed) => Ok(Some(packed)),
            Err(fault) => Err(fault),
        },
        RepackTarget::Complex => pack_complex(alloc, column, kind, below),
        RepackTarget::Spatial(order) => pack_spatial(alloc, column, kind, order, below),
        RepackTarget::Coded { block, interval } => {
            pack_coded_below(alloc, column, kind, block, interval, below)
        }
    }
}
