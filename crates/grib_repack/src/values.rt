//! Simple packing of fields as their values come.

ghost use Rattle.std.specs.Prelude.{◌≡◌, ◌^◌, ◌<◌, ◌≤◌, length, IfOk, Ok};
ghost use Rattle.grib_bitmap.specs.Mask.{present_count};
ghost use Rattle.grib_packing.specs.Entries.{entries_of};
ghost use Rattle.grib_packing.specs.Misfits.{ToSimple};
ghost use Rattle.grib_packing.specs.Representation.{Spelled};
ghost use Rattle.grib_packing.specs.Written.{IsPacked};
ghost use Rattle.grib_simple_values.specs.Kept.{IsSeen};
ghost use Rattle.grib2_message.specs.Fields.{field_count, part_octets, field_mask, column_of};
ghost use Rattle.grib_repack.specs.Repacked.{kind_of};

use grib_packing::{PackFault, Packed, Packing, Simple};
use grib_simple::{MOST_NUMBER, SimplePacking};
use grib_simple_values::{MarkedWriter, NumberWriter, Seen, mask_section, pack_written};
use grib2_message::ReadableMessage;
use std::alloc::{AllocError, Global};

/// Sections 5, 6 and 7 of one field, counted from 1, in simple packing. Its values are handed on twice, to be looked at and
/// to be written. No column is made, unless one has no place in simple packing, or values are missing of a field that
/// has a bitmap too.
///
/// # Errors
///
/// A point is secondary missing, a scaled integer is negative or has more than 48 bits, or there is no
/// memory.
pub(crate) fn pack_values(
    alloc: Global,
    message: &ReadableMessage<'_>,
    field: u32,
    simple: &Simple,
) -> Result<Packed, PackFault>
    requires first { 1 ≤ field }
    requires last { field ≤ field_count message.now }
    requires spelled { Spelled simple.now (part_octets message.now field 5) }
    ensures { IsPacked ToSimple (column_of message.now field) (kind_of message.now field) result }
{
    let seen = message.take_values(alloc, field, Seen::none())?;
    if seen.greatest <= MOST_NUMBER {
        if seen.present == simple.values {
            let packed = pack_present(alloc, message, field, simple, &seen)?;
            return Ok(packed);
        }
        let mask = message.mask(alloc, field)?;
        if mask.len() == simple.values {
            let packed = pack_marked(alloc, message, field, simple, &seen)?;
            return Ok(packed);
        }
    }
    let column = message.column(alloc, field)?;
    SimplePacking.pack(alloc, &column, simple.kind)
}

/// Sections 5, 6 and 7 of one field of which no value is missing.
fn pack_present(
    alloc: Global,
    message: &ReadableMessage<'_>,
    field: u32,
    simple: &Simple,
    seen: &Seen,
) -> Result<Packed, AllocError>
    requires first { 1 ≤ field }
    requires last { field ≤ field_count message.now }
    requires spelled { Spelled simple.now (part_octets message.now field 5) }
    requires seen { IsSeen (entries_of (part_octets message.now field 5) (part_octets message.now field 7)) seen.now }
    requires fits { seen.now.greatest < 2 ^ 48 }
    requires present { seen.now.present ≡ simple.now.values }
    ensures { IfOk result (λ packed.
        IsPacked ToSimple (column_of message.now field) (kind_of message.now field) (Ok packed)) }
{
    let mask = message.mask(alloc, field)?;
    let none = NumberWriter::start(alloc, seen.present, seen.greatest)?;
    let written = message.take_values(alloc, field, none)?;
    let section6 = mask_section(alloc, &mask, seen.present)?;
    let packed = pack_written(alloc, simple, seen.present, section6, written)?;
    Ok(packed)
}

/// Sections 5, 6 and 7 of one field that has a value for each point, of which some are missing.
fn pack_marked(
    alloc: Global,
    message: &ReadableMessage<'_>,
    field: u32,
    simple: &Simple,
    seen: &Seen,
) -> Result<Packed, AllocError>
    requires first { 1 ≤ field }
    requires last { field ≤ field_count message.now }
    requires spelled { Spelled simple.now (part_octets message.now field 5) }
    requires seen { IsSeen (entries_of (part_octets message.now field 5) (part_octets message.now field 7)) seen.now }
    requires fits { seen.now.greatest < 2 ^ 48 }
    requires present { seen.now.present < simple.now.values }
    requires most { simple.now.values ≤ 33554432 }
    requires whole { length (field_mask message.now field) ≡ simple.now.values }
    requires masked { present_count (field_mask message.now field) ≡ simple.now.values }
    ensures { IfOk result (λ packed.
        IsPacked ToSimple (column_of message.now field) (kind_of message.now field) (Ok packed)) }
{
    let none = MarkedWriter::start(alloc, simple.values, seen.present, seen.greatest)?;
    let MarkedWriter { numbers, bitmap } = message.take_values(alloc, field, none)?;
    let packed = pack_written(alloc, simple, seen.present, bitmap.finish(), numbers)?;
    Ok(packed)
}
