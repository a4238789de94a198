//! The sections of values whose numbers are written.

ghost use Rattle.std.specs.Prelude.{◌≡◌, ◌<◌, ◌≤◌, ◌^◌, length, IfOk, Ok};
ghost use Rattle.grib_packing.specs.declared.column.Column as column_packing;
ghost use Rattle.grib_packing.specs.Groupings.{greatest as greatest_of};
ghost use Rattle.grib_packing.specs.Misfits.{ToSimple, first_misfit};
ghost use Rattle.grib_packing.specs.Packed.{HasNumbers, IsBitmap, simple_numbers};
ghost use Rattle.grib_packing.specs.Written.{IsPacked};
ghost use Rattle.grib_simple_values.specs.Written.{HasWritten};

use crate::NumberWriter;
use grib_base::List;
use grib_packing::{Packed, Simple, room_for};
use grib_simple::representation_section;
use std::alloc::{AllocError, Global};

/// Sections 5, 6 and 7 of a field in simple packing, of which all numbers are written, as many as `values`. It keeps R, E and
/// D and the type of the original values.
///
/// # Errors
///
/// There is no memory for Section 5.
pub fn pack_written(
    alloc: Global,
    simple: &Simple,
    values: u32,
    section6: List<u8>,
    written: NumberWriter,
) -> Result<Packed, AllocError>
    ensures { IfOk result (λ packed. (column : column_packing.Column)
        → column.reference ≡ simple.now.reference → column.e ≡ simple.now.e → column.d ≡ simple.now.d
        → first_misfit ToSimple column.points ≡ None → values ≡ length (simple_numbers column.points) → values ≤ 33554432
        → IsBitmap section6 column.points
        → HasWritten values (greatest_of (simple_numbers column.points)) (simple_numbers column.points) written
        → IsPacked ToSimple column simple.now.kind (Ok packed)) }
{
    let section5 = representation_with(alloc, simple, values, written.width as u8)?;
    Ok(Packed {
        section5,
        section6,
        section7: written.finish(),
    })
}

/// Section 5 of simple packing with other numbers of this many bits (WMO-No. 306, Volume I.2, FM 92 GRIB edition 2, data
/// representation template 5.0).
pub(crate) fn representation_with(
    alloc: Global,
    simple: &Simple,
    values: u32,
    bits: u8,
) -> Result<List<u8>, AllocError>
    ensures { IfOk result (λ section. (length section ≡ 21) × ((column : column_packing.Column)
        → column.reference ≡ simple.now.reference → column.e ≡ simple.now.e → column.d ≡ simple.now.d
        → HasNumbers section column values 0 bits simple.now.kind)) }
{
    let column = simple.column(Vec::new(alloc));
    let room = room_for(alloc, 21)?;
    Ok(representation_section(&column, values, bits, simple.kind, room))
}
