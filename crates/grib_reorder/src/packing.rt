//! Packing a column as its field is packed.

ghost use Rattle.std.specs.Prelude.{◌≡◌, ◌≤◌, ℕ, None, length};
ghost use Rattle.grib_bits.specs.Octets.{octets};
ghost use Rattle.grib_packing.specs.Entries.{packing_fault};
ghost use Rattle.grib_packing.specs.Misfits.{ToCoded};
ghost use Rattle.grib_packing.specs.Targets.{target_of};
ghost use Rattle.grib_packing.specs.Written.{IsPacked, IsTarget, MayBePacked};
ghost use Rattle.grib_reorder.specs.Rescanned.{own_blocks, own_target};

use grib_bits::{u8_at, u16_at};
use grib_packed::pack_column;
use grib_packing::{Column, PackFault, Packed, RepackTarget};
use std::alloc::Global;

/// Sections 5, 6 and 7 of a column, packed as this Section 5 says: by its template and, for differences, their
/// order, or its blocks. Octet 21 of Section 5, the type of the original values, does not change (WMO-No. 306, Volume I.2, FM 92 GRIB
/// edition 2, code table 5.0).
///
/// # Errors
///
/// Something of the column does not fit the packing, the first misfit being named, or there is no memory.
pub(crate) fn pack_as(alloc: Global, section5: &[u8], column: &Column) -> Result<Packed, PackFault>
    requires accepted { (points : ℕ) × (packing_fault section5.now points ≡ None) }
    requires column { MayBePacked column.now }
    ensures { IsPacked (own_target section5.now) column.now (octets section5.now 21 21) result }
{
    let target = own_target_of(section5);
    match pack_column(alloc, column, u8_at(section5, 21), target, None) {
        Ok(Some(packed)) => Ok(packed),
        Ok(None) => unreachable!(),
        Err(fault) => Err(fault),
    }
}

/// The packing that a Section 5 says.
fn own_target_of(section5: &[u8]) -> RepackTarget
    requires accepted { (points : ℕ) × (packing_fault section5.now points ≡ None) }
    ensures own { target_of result ≡ own_target section5.now }
    ensures known { IsTarget (target_of result) }
{
    match u16_at(section5, 10) {
        0 => RepackTarget::Simple,
        2 => RepackTarget::Complex,
        42 => {
            let (block, interval) = blocks_of(section5);
            RepackTarget::Coded { block, interval }
        }
        _ => RepackTarget::Spatial(u8_at(section5, 48)),
    }
}

/// The values of a block, and the blocks from one reference to the next, by Section 5 of CCSDS packing. Where numbers
/// have no bits, it tells of no blocks: 32 values and 128 blocks are taken.
fn blocks_of(section5: &[u8]) -> (u8, u16)
    requires { 25 ≤ length section5.now }
    ensures { ToCoded result.0 result.1 ≡ own_blocks section5.now }
{
    if u8_at(section5, 20) == 0 {
        return (32, 128);
    }
    (u8_at(section5, 23), u16_at(section5, 24))
}
