//! Columns that are packed simply.

ghost use Rattle.std.specs.Prelude.{◌≡◌, ◌+◌, ◌*◌, ◌/◌, ◌≤◌, cond};
ghost use Rattle.grib_packing.specs.Misfits.{ToSimple};
ghost use Rattle.grib_packing.specs.Written.{IsPacked, MayBePacked};

use crate::survey::Survey;
use crate::writing::{bitmap_section, representation_section, values_section};
use grib_packing::{Column, PackFault, Packed, bit_length, room_for};
use std::alloc::Global;

/// The greatest number of simple packing, which has 48 bits at most.
pub const MOST_NUMBER: u64 = (1 << 48) - 1;

/// Sections 5, 6 and 7 of a column: the numbers of the points that are not missing in the least bits,
/// and a bitmap where a point is missing. `kind` is the type of the original values (code table 5.1).
/// It looks at all points first, takes all its memory, and then writes. A field of one value, or wholly
/// missing, is written without looking again.
///
/// # Errors
///
/// A point is secondary missing, a scaled integer is negative or has more than 48 bits, or there is
/// no memory.
pub fn pack_simply(alloc: Global, column: &Column, kind: u8) -> Result<Packed, PackFault>
    requires { MayBePacked column.now }
    ensures { IsPacked ToSimple column.now kind result }
{
    let points = column.points.as_slice();
    let survey = Survey::of(points, MOST_NUMBER);
    survey.fits()?;
    let bits = bit_length(survey.greatest);
    let octets = values_octets(survey.present, bits);
    let section5 = room_for(alloc, 21)?;
    let section6 = room_for(alloc, bitmap_octets(points.len() as u32, survey.missing))?;
    let section7 = room_for(alloc, octets)?;
    Ok(Packed {
        section5: representation_section(column, survey.present, bits as u8, kind, section5),
        section6: bitmap_section(points, survey.present, survey.missing, section6),
        section7: values_section(points, survey, bits, octets, section7),
    })
}

/// The octets of a Section 6, with bits for this many points where one is missing.
pub fn bitmap_octets(points: u32, missing: bool) -> u32
    requires { points ≤ 33554432 }
    ensures { result ≡ cond missing (6 + (points + 7) / 8) 6 }
{
    if missing { 6 + points.div_ceil(8) } else { 6 }
}

/// The octets of a Section 7 with this many numbers of this many bits.
fn values_octets(count: u32, bits: u32) -> u32
    requires count { count ≤ 33554432 }
    requires bits { bits ≤ 48 }
    ensures { result ≡ 5 + (count * bits + 7) / 8 }
{
    5 + (count * bits).div_ceil(8)
}
