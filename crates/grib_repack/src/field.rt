//! One field in another packing.

ghost use Rattle.std.specs.Prelude.{◌≡◌, ◌≤◌, IfSome};
ghost use Rattle.grib_packing.specs.Written.{IsTarget, MayBePacked};
ghost use Rattle.grib_packing.specs.Below.{IsPackedBelow};
ghost use Rattle.grib2_message.specs.Fields.{field_count, column_of};
ghost use Rattle.grib_packing.specs.Targets.{target_of};
ghost use Rattle.grib_repack.specs.Repacked.{kind_of};

use crate::RepackTarget;
use crate::column::pack_by_column;
use crate::groups::pack_in_groups;
use crate::plain::pack_simply;
use grib_bits::u16_at;
use grib_packing::{Column, PackFault, Packed};
use grib2_message::ReadableMessage;
use std::alloc::Global;

/// Sections 5, 6 and 7 of one field, counted from 1, in the packing of a target; none where a quick look at groups shows
/// that they have `below` octets or more. A caller that has the column of the field hands it in, so that it is not made
/// again. A field in simple packing is packed simply from its numbers where they stand, another one as its values come. For
/// groups without differences 4 octets are taken for each point in place of a column.
///
/// # Errors
///
/// The first misfit of the column of the field, or there is no memory.
pub fn pack_field(
    alloc: Global,
    message: &ReadableMessage<'_>,
    field: u32,
    column: Option<&Column>,
    target: RepackTarget,
    below: Option<u64>,
) -> Result<Option<Packed>, PackFault>
    requires target { IsTarget (target_of target) }
    requires first { 1 ≤ field }
    requires last { field ≤ field_count message.now }
    requires column { IfSome column (λ column. (column.now ≡ column_of message.now field) × MayBePacked column.now) }
    ensures { IsPackedBelow (target_of target) (column_of message.now field) (kind_of message.now field) below result }
{
    let Some(section5) = message.part(field, 5) else {
        unreachable!();
    };
    let is_plain = u16_at(section5.octets, 10) == 0;
    if column.is_some() && !is_plain {
        return pack_by_column(alloc, message, field, column, target, below);
    }
    match target {
        RepackTarget::Simple => match pack_simply(alloc, message, field) {
            Ok(packed) => Ok(Some(packed)),
            Err(fault) => Err(fault),
        },
        RepackTarget::Complex => pack_in_groups(alloc, message, field, column, below),
        RepackTarget::Spatial(_) | RepackTarget::Coded { .. } => {
            pack_by_column(alloc, message, field, column, target, below)
        }
    }
}
