//! Putting a message in another order, and cutting out a subarea.

ghost use Rattle.std.specs.Prelude.{◌≡◌, ◌≤◌, ◌<◌, None, map, MatchResult};
ghost use Rattle.std.specs.List.{range_with_len};
ghost use Rattle.grib2_message.specs.Fields.{field_count};
ghost use Rattle.grib_reorder.specs.Rescanned.{Stands, edited, edited_field, field_misfit, grid_misfit, edit_misfit};
ghost use Rattle.grib_reorder.specs.Fields.{IsColumnEdited, IsFieldEdited, AreFieldsEdited, IsAsLongEdited, length_with};
ghost use Rattle.grib_reorder.specs.Faults.{IsRescanFault};
ghost use Rattle.grib_reorder.specs.declared.edit.GridEdit.TheVariants as edits;

use crate::packing::pack_as;
use crate::plain::plain_field;
use crate::{GridEdit, RescanFault};
use grib_base::MOST_OCTETS;
use grib_packed::laws::one_packing_is_written;
use grib_packing::{Column, PackFault, Packed};
use grib_repack::{kept_length, packed_length};
use grib_rescan::Area;
use grib_rescan::laws::what_has_no_cause;
use grib2_message::ReadableMessage;
use std::alloc::Global;

/// The message with the points of its grids in the order of scanning octet 0: rows from the north, and points
/// of a rule from the west. Sections 5, 6 and 7 of each field are packed anew as the field is packed, each
/// Section 3 has the first corner in the north west, and all other octets but the total length are as before. It
/// holds the message, the new sections and one column at a time; two where the points of a column of the
/// grid are consecutive, unless the field is in simple packing without missing points. The new sections that it holds
/// have 268,435,456 octets at most, besides those of the last field: once the message is too long, the later fields are
/// packed one at a time, for their causes and lengths alone.
///
/// # Errors
///
/// The first cause, field by field: the grid is not one of template 3.0 without a list of rows; the scanning
/// mode has one of bits 5 to 8; the field does not fit its packing. Else the new message would have more than
/// 268,435,456 octets; or there is no memory.
pub fn rescan(alloc: Global, message: &ReadableMessage<'_>) -> Result<Vec<u8>, RescanFault>
    ensures { MatchResult result
        (λ octets. (edit_misfit edits.Rescan message.now ≡ None) × (octets.items ≡ edited edits.Rescan message.now))
        (IsRescanFault (edit_misfit edits.Rescan message.now)) }
{
    edit_message(alloc, message, &GridEdit::Rescan)
}

/// The message with a subarea of its grids alone. Sections 5, 6 and 7 of each field are packed anew as the field
/// is packed, each Section 3 has the numbers and corners of the subarea, and all other octets but the total
/// length are as before. It holds the message, the new sections, as `rescan` does, and the column of one subarea at a time,
/// and beside it that of the whole field, unless the field is in simple packing without missing points.
///
/// # Errors
///
/// The first cause, field by field: the grid is not one of template 3.0 without a list of rows; the scanning
/// octet is not 0; the subarea does not lie in the grid; the increments do not lead from the first point to the
/// last; the field does not fit its packing. Else the new message would have more than 268,435,456 octets;
/// or there is no memory.
pub fn crop(
    alloc: Global,
    message: &ReadableMessage<'_>,
    area: &Area,
) -> Result<Vec<u8>, RescanFault>
    requires columns { area.now.i0 ≤ area.now.i1 }
    requires rows { area.now.j0 ≤ area.now.j1 }
    ensures { MatchResult result
        (λ octets. (edit_misfit (edits.Crop area.now) message.now ≡ None)
        × (octets.items ≡ edited (edits.Crop area.now) message.now))
        (IsRescanFault (edit_misfit (edits.Crop area.now) message.now)) }
{
    edit_message(alloc, message, &GridEdit::Crop(*area))
}

/// The message with what is made of its grids.
///
/// # Errors
///
/// As those of `rescan` and of `crop`.
pub fn edit_message(
    alloc: Global,
    message: &ReadableMessage<'_>,
    edit: &GridEdit,
) -> Result<Vec<u8>, RescanFault>
    requires { Stands edit.now }
    ensures { MatchResult result
        (λ octets. (edit_misfit edit.now message.now ≡ None) × (octets.items ≡ edited edit.now message.now))
        (IsRescanFault (edit_misfit edit.now message.now)) }
{
    let packed = edit_fields(alloc, message, edit)?;
    Ok(message.assemble_with(alloc, edit, &packed)?)
}

/// Sections 5, 6 and 7 of each field of the message, or why it is not edited.
fn edit_fields(
    alloc: Global,
    message: &ReadableMessage<'_>,
    edit: &GridEdit,
) -> Result<Vec<Packed>, RescanFault>
    requires { Stands edit.now }
    ensures { MatchResult result
        (λ packed. AreFieldsEdited edit.now message.now (field_count message.now) packed.items)
        (IsRescanFault (edit_misfit edit.now message.now)) }
{
    let fields = message.fields();
    let mut packed = Vec::with_capacity(alloc, fields as usize)?;
    let mut total = kept_length(message);
    for before in 0..fields {
        let field = edit_field(alloc, message, before + 1, edit)?;
        total += packed_length(&field);
        let Ok(()) = packed.push(field) else {
            return Err(RescanFault::Memory);
        };
        if total > MOST_OCTETS {
            drop(packed);
            return Err(too_long(alloc, message, edit, before + 1, total));
        }
    }
    Ok(packed)
}

/// Why a message is not edited that is too long with the new sections of its first fields: the first cause of a later
/// field, or how many octets it would have. `total` are those that stay and those of the first `done` fields. The
/// sections of one field are held at a time.
fn too_long(
    alloc: Global,
    message: &ReadableMessage<'_>,
    edit: &GridEdit,
    done: u32,
    total: u64,
) -> RescanFault
    requires stands { Stands edit.now }
    requires done { done ≤ field_count message.now }
    requires whole { IsAsLongEdited edit.now message.now }
    requires edited { AreFieldsEdited edit.now message.now done
        (map (edited_field edit.now message.now) (range_with_len 1 done)) }
    requires total { total ≡ length_with edit.now message.now done }
    requires long { 268435456 < total }
    requires few { total ≤ 17179869184 }
    ensures { IsRescanFault (edit_misfit edit.now message.now) result }
{
    let mut whole = total;
    for before in done..message.fields() {
        match edit_field(alloc, message, before + 1, edit) {
            Ok(field) => whole += packed_length(&field),
            Err(fault) => return fault,
        }
    }
    RescanFault::OutputTooLong(whole)
}

/// Sections 5, 6 and 7 of one field, counted from 1.
fn edit_field(
    alloc: Global,
    message: &ReadableMessage<'_>,
    field: u32,
    edit: &GridEdit,
) -> Result<Packed, RescanFault>
    requires stands { Stands edit.now }
    requires first { 1 ≤ field }
    requires last { field ≤ field_count message.now }
    ensures { MatchResult result
        (IsFieldEdited edit.now message.now field)
        (IsRescanFault (field_misfit edit.now message.now field)) }
{
    one_packing_is_written();
    let column = edit_column(alloc, message, field, edit)?;
    let Some(section5) = message.part(field, 5) else {
        unreachable!();
    };
    match pack_as(alloc, section5.octets, &column) {
        Ok(packed) => Ok(packed),
        Err(PackFault::OutOfRange(point)) => Err(RescanFault::OutOfRange { field, point }),
        Err(PackFault::DifferenceRange) => Err(RescanFault::DifferenceRange { field }),
        Err(PackFault::Memory) => Err(RescanFault::Memory),
        Err(PackFault::SecondaryMissing(_)) => unreachable!(),
    }
}

/// The new column of one field, counted from 1.
fn edit_column(
    alloc: Global,
    message: &ReadableMessage<'_>,
    field: u32,
    edit: &GridEdit,
) -> Result<Column, RescanFault>
    requires stands { Stands edit.now }
    requires first { 1 ≤ field }
    requires last { field ≤ field_count message.now }
    ensures { MatchResult result
        (IsColumnEdited edit.now message.now field)
        (IsRescanFault (grid_misfit edit.now message.now field)) }
{
    what_has_no_cause();
    let Some(section3) = message.part(field, 3) else {
        unreachable!();
    };
    if let Some(cause) = edit.cause(section3.octets) {
        return Err(RescanFault::of_grid(field, cause));
    }
    if edit.takes_numbers(section3.octets) {
        if let Some(plain) = plain_field(alloc, message, field)? {
            return Ok(edit.plain_column(alloc, section3.octets, &plain)?);
        }
    }
    let column = message.column(alloc, field)?;
    Ok(edit.column(alloc, section3.octets, column)?)
}
