//! The column of a message.

ghost use Rattle.std.specs.Prelude.{◌≡◌, ◌+◌, ◌*◌, ◌≤◌, length, map, pos, option_copied, IfOk};
ghost use Rattle.grib_bits.specs.Bits.{bits as bits_in};
ghost use Rattle.grib_bits.specs.Plain.{plain};
ghost use Rattle.grib_bitmap.specs.Mask.{present_count};
ghost use Rattle.grib_packing.specs.Column.{points_with_mask};
ghost use Rattle.grib_packing.specs.declared.column.Point.TheVariants.{Scaled};
ghost use Rattle.grib1_sections.specs.Bitmap.{mask_of};
ghost use Rattle.grib1_sections.specs.Data.{bit_width};
ghost use Rattle.grib1_sections.specs.Column.{column_from};
ghost use Rattle.grib1_sections.specs.Held.{HoldsBits};

use grib_base::List;
use grib_bitmap::Mask;
use grib_bits::{u8_at, u16_at, u32_at};
use grib_packing::{Column, Point};
use grib_simple_reading::{masked_points, unpack_points};
use std::alloc::{AllocError, Global};

/// The column of a grid of `points` points, by Section 1, Section 3, where there is one, and Section 4.
pub(crate) fn read_column(
    alloc: Global,
    section1: &[u8],
    section3: Option<&[u8]>,
    section4: &[u8],
    points: u32,
) -> Result<Column, AllocError>
    requires identification { 28 ≤ length section1.now }
    requires bitmap { HoldsBits (option_copied section3) points }
    requires width { bit_width section4.now ≤ 48 }
    requires header { 11 ≤ length section4.now }
    requires numbers { present_count (mask_of (option_copied section3) points)
        * bit_width section4.now + 88 ≤ 8 * length section4.now }
    ensures { IfOk result (λ column. column
        ≡ column_from section1.now (mask_of (option_copied section3.entry) points) section4.now) }
{
    let bits = u32::from(u8_at(section4, 11));
    let points = read_points(alloc, section3, &section4[11..], bits, points)?;
    Ok(Column {
        reference: u32_at(section4, 7),
        e: u16_at(section4, 5),
        d: u16_at(section1, 27),
        points: List::of(points),
    })
}

/// The points of a grid with this Section 3, or all of them without one: each that is present takes the
/// next of the numbers of `bits` bits each in these octets.
fn read_points(
    alloc: Global,
    section3: Option<&[u8]>,
    octets: &[u8],
    bits: u32,
    points: u32,
) -> Result<Vec<Point>, AllocError>
    requires bitmap { HoldsBits (option_copied section3) points }
    requires width { bits ≤ 48 }
    requires numbers { bits * present_count (mask_of (option_copied section3) points)
        ≤ 8 * length octets.now }
    ensures { let presence = mask_of (option_copied section3.entry) points in
        IfOk result (λ entries. entries.items ≡ points_with_mask presence
        (map (λ x. Scaled (pos x)) (plain (bits_in octets.now) bits (present_count presence)))) }
{
    match section3 {
        None => unpack_points(alloc, octets, bits, points),
        Some(bitmap) => {
            let mask = Mask::of_octets(alloc, &bitmap[6..], points)?;
            masked_points(alloc, octets, bits, &mask)
        }
    }
}
