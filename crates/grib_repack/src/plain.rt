//! Simple packing of fields.

ghost use Rattle.std.specs.Prelude.{◌≤◌};
ghost use Rattle.grib_packing.specs.Misfits.{ToSimple};
ghost use Rattle.grib_packing.specs.Written.{IsPacked};
ghost use Rattle.grib2_message.specs.Fields.{field_count, column_of};
ghost use Rattle.grib_repack.specs.Repacked.{kind_of};

use crate::values::pack_values;
use grib_packing::{PackFault, Packed, numbers_of};
use grib_simple_values::pack_numbers;
use grib2_message::ReadableMessage;
use std::alloc::Global;

/// Sections 5, 6 and 7 of one field, counted from 1, in simple packing. A field that stands in simple packing
/// is written from its numbers where they stand, another one as its values come. A column is made only where a value has
/// no place in simple packing, or values are missing of a field that has a bitmap too.
///
/// # Errors
///
/// A point is secondary missing, a scaled integer is negative or has more than 48 bits, or there is no
/// memory.
pub fn pack_simply(
    alloc: Global,
    message: &ReadableMessage<'_>,
    field: u32,
) -> Result<Packed, PackFault>
    requires first { 1 ≤ field }
    requires last { field ≤ field_count message.now }
    ensures { IsPacked ToSimple (column_of message.now field) (kind_of message.now field) result }
{
    let (Some(section5), Some(section7)) = (message.part(field, 5), message.part(field, 7)) else {
        unreachable!();
    };
    let simple = numbers_of(section5.octets);
    if simple.template != 0 {
        return pack_values(alloc, message, field, &simple);
    }
    let mask = message.mask(alloc, field)?;
    let packed = pack_numbers(alloc, &simple, &section7.octets[5..], &mask)?;
    Ok(packed)
}
