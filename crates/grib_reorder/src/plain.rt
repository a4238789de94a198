//! Fields whose points are packed numbers, one for each grid point.

ghost use Rattle.std.specs.Prelude.{◌≡◌, ◌≤◌, IfOk, IfSome};
ghost use Rattle.grib2_grids.specs.Grid.{grid_points};
ghost use Rattle.grib2_message.specs.Fields.{field_count, part_octets, column_of};
ghost use Rattle.grib_reorder.specs.Plain.{plain_column, PlainStands};

use grib_packing::{Simple, numbers_of};
use grib_rescan::Numbers;
use grib2_message::ReadableMessage;
use std::alloc::{AllocError, Global};

/// A field in simple packing none of whose points is missing: no column is made of it.
#[derive(Clone, Copy, Debug)]
pub(crate) struct PlainField<'a> {
    pub simple: Simple,
    pub numbers: Numbers<'a>,
}

/// A field as such a one, if it is. Fields count from 1.
///
/// # Errors
///
/// There is no memory for its mask.
pub(crate) fn plain_field<'a>(
    alloc: Global,
    message: &ReadableMessage<'a>,
    field: u32,
) -> Result<Option<PlainField<'a>>, AllocError>
    requires first { 1 ≤ field }
    requires last { field ≤ field_count message.now }
    ensures stands { IfOk result (λ found. IfSome found (λ plain.
        PlainStands (grid_points (part_octets message.now field 3)) plain)) }
    ensures column { IfOk result (λ found. IfSome found (λ plain.
        plain_column plain ≡ column_of message.now field)) }
{
    let (Some(section5), Some(section7)) = (message.part(field, 5), message.part(field, 7)) else {
        unreachable!();
    };
    let simple = numbers_of(section5.octets);
    if simple.template != 0 {
        return Ok(None);
    }
    let mask = message.mask(alloc, field)?;
    if simple.values != mask.len() {
        return Ok(None);
    }
    Ok(Some(PlainField {
        simple,
        numbers: Numbers {
            octets: &section7.octets[5..],
            bits: u32::from(simple.bits),
            count: simple.values,
        },
    }))
}
