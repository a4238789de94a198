//! Fields that are packed by way of their column.

ghost use Rattle.std.specs.Prelude.{◌≡◌, ◌≤◌, IfSome};
ghost use Rattle.grib_packing.specs.Written.{IsTarget, MayBePacked};
ghost use Rattle.grib_packing.specs.Below.{IsPackedBelow};
ghost use Rattle.grib2_message.specs.Fields.{field_count, column_of};
ghost use Rattle.grib_packing.specs.Targets.{target_of};
ghost use Rattle.grib_repack.specs.Repacked.{kind_of};

use crate::RepackTarget;
use grib_bits::u8_at;
use grib_packed::pack_column;
use grib_packing::{Column, PackFault, Packed};
use grib2_message::ReadableMessage;
use std::alloc::Global;

/// Sections 5, 6 and 7 of one field, counted from 1, from its column, which is made where it is not handed in.
///
/// # Errors
///
/// The first misfit of the column of the field, or there is no memory.
pub(crate) fn pack_by_column(
    alloc: Global,
    message: &ReadableMessage<'_>,
    field: u32,
    column: Option<&Column>,
    target: RepackTarget,
    below: Option<u64>,
) -> Result<Option<Packed>, PackFault>
    requires target { IsTarget (target_of target) }
    requires first { 1 ≤ field }
    requires last { field ≤ field_count message.now }
    requires column { IfSome column (λ column. (column.now ≡ column_of message.now field) × MayBePacked column.now) }
    ensures { IsPackedBelow (target_of target) (column_of message.now field) (kind_of message.now field) below result }
{
    let Some(section5) = message.part(field, 5) else {
        unreachable!();
    };
    let kind = u8_at(section5.octets, 21);
    match column {
        Some(column) => pack_column(alloc, column, kind, target, below),
        None => {
            let column = message.column(alloc, field)?;
            pack_column(alloc, &column, kind, target, below)
        }
    }
}
