//! Complex packing of fields by the words of their codes.

ghost use Rattle.std.specs.Prelude.{◌≡◌, ◌≤◌, length, IfOk, IfSome};
ghost use Rattle.grib_packing.specs.Misfits.{ToComplex};
ghost use Rattle.grib_packing.specs.Entries.{entries_of};
ghost use Rattle.grib_packing.specs.Written.{MayBePacked};
ghost use Rattle.grib_packing.specs.Packing.{value_count};
ghost use Rattle.grib_packing.specs.Representation.{Spelled};
ghost use Rattle.grib_packing.specs.Below.{IsPackedBelow};
ghost use Rattle.grib_codes.specs.KeptWords.{AreWords};
ghost use Rattle.grib2_message.specs.Fields.{field_count, part_octets, column_of};
ghost use Rattle.grib_repack.specs.Repacked.{kind_of};

use crate::RepackTarget;
use crate::column::pack_by_column;
use grib_complex::{PointWords, pack_codes};
use grib_packing::{Column, PackFault, Packed, Simple, numbers_of};
use grib2_message::ReadableMessage;
use std::alloc::{AllocError, Global};

/// Sections 5, 6 and 7 of one field, counted from 1, in the groups of 1 to 64 points that take the fewest bits; none where
/// a quick look shows that they have `below` octets or more. No column is made, unless a number
/// has no code.
///
/// # Errors
///
/// A scaled integer is negative, or it and the reserved codes take more than 32 bits; or there is no
/// memory.
pub(crate) fn pack_in_groups(
    alloc: Global,
    message: &ReadableMessage<'_>,
    field: u32,
    column: Option<&Column>,
    below: Option<u64>,
) -> Result<Option<Packed>, PackFault>
    requires first { 1 ≤ field }
    requires last { field ≤ field_count message.now }
    requires column { IfSome column (λ column. (column.now ≡ column_of message.now field) × MayBePacked column.now) }
    ensures { IsPackedBelow ToComplex (column_of message.now field) (kind_of message.now field) below result }
{
    let Some(section5) = message.part(field, 5) else {
        unreachable!();
    };
    let simple = numbers_of(section5.octets);
    let kept = point_words(alloc, message, field, &simple)?;
    let Some(told) = kept.told() else {
        return pack_by_column(alloc, message, field, column, RepackTarget::Complex, below);
    };
    let no_points = simple.column(Vec::new(alloc));
    let packed = pack_codes(alloc, &no_points, simple.kind, &told, below)?;
    Ok(packed)
}

/// The words of the points of a field, counted from 1, with the numbers of its Section 5: 4 octets a point, and no column.
///
/// # Errors
///
/// There is no memory for the words.
pub fn point_words(
    alloc: Global,
    message: &ReadableMessage<'_>,
    field: u32,
    simple: &Simple,
) -> Result<PointWords, AllocError>
    requires first { 1 ≤ field }
    requires last { field ≤ field_count message.now }
    requires spelled { Spelled simple.now (part_octets message.now field 5) }
    ensures words { IfOk result (AreWords (column_of message.now field).points) }
    ensures some { IfOk result (λ kept. 1 ≤ length kept.words.items) }
    ensures few { IfOk result (λ kept. length kept.words.items ≤ 33554432) }
{
    let kept = value_words(alloc, message, field, simple)?;
    let mask = message.mask(alloc, field)?;
    let all = kept.with_mask(alloc, &mask)?;
    Ok(all)
}

/// The words of a field's values, with the numbers of its Section 5. Numbers of 1 to 31 bits in simple packing are read where
/// they stand.
///
/// # Errors
///
/// There is no memory for the words.
fn value_words(
    alloc: Global,
    message: &ReadableMessage<'_>,
    field: u32,
    simple: &Simple,
) -> Result<PointWords, AllocError>
    requires first { 1 ≤ field }
    requires last { field ≤ field_count message.now }
    requires spelled { Spelled simple.now (part_octets message.now field 5) }
    ensures words { IfOk result (AreWords
        (entries_of (part_octets message.now field 5) (part_octets message.now field 7))) }
    ensures count { IfOk result (λ _. length (entries_of (part_octets message.now field 5) (part_octets message.now field 7))
        ≡ value_count (part_octets message.now field 5)) }
{
    if simple.template == 0 && 1 <= simple.bits && simple.bits <= 31 {
        let Some(section7) = message.part(field, 7) else {
            unreachable!();
        };
        let octets = &section7.octets[5..];
        let kept = PointWords::of_numbers(alloc, octets, u32::from(simple.bits), simple.values)?;
        return Ok(kept);
    }
    let none = PointWords::start(alloc, simple.values)?;
    let kept = message.take_values(alloc, field, none)?;
    Ok(kept)
}
