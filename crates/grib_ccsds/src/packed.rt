//! Columns that are packed in blocks.

ghost use Rattle.std.specs.Prelude.{◌≡◌, ◌<◌, ◌≤◌, ◌^◌, true, false, All, IfOk, IfSome, IsSomeAnd};
ghost use Rattle.grib_packing.specs.Below.{IsPackedBelow};
ghost use Rattle.grib_packing.specs.Groupings.{digits};
ghost use Rattle.grib_packing.specs.Misfits.{ToCoded};
ghost use Rattle.grib_packing.specs.Packed.{simple_numbers};
ghost use Rattle.grib_packing.specs.Written.{IsBlocks, IsPacked, MayBePacked};
ghost use Rattle.grib_ccsds.specs.Fewer.{AreBelow};
ghost use Rattle.grib_ccsds.specs.Numbers.{AreToCode};

use crate::writing::{blocks_section, coded_representation, octets_of_blocks};
use grib_coding::Coding;
use grib_packing::{Column, PackFault, Packed, Point, bit_length, room_for};
use grib_simple::{Survey, bitmap_octets, bitmap_section};
use std::alloc::{AllocError, Global};

/// The greatest number of CCSDS packing, which has 32 bits at most.
const MOST: u64 = (1 << 32) - 1;

/// Codes are mapped differences (8); a program that holds the numbers in memory holds them in 4 octets each (2), the
/// first octet first (4).
const FLAGS: u8 = 14;

/// The octets of Section 5 of template 5.42.
const REPRESENTATION_OCTETS: u32 = 25;

/// Sections 5, 6 and 7 of a column: the numbers of the points that are not missing in blocks of `block` values, with
/// `interval` blocks from one reference to the next, and a bitmap where a point is missing. `kind` is the type of the
/// original values (code table 5.1). It looks at all points first, takes all its memory, and then writes.
///
/// # Errors
///
/// A point is secondary missing, a scaled integer is negative or has more than 32 bits, or there is no memory.
pub fn pack_coded(
    alloc: Global,
    column: &Column,
    kind: u8,
    block: u8,
    interval: u16,
) -> Result<Packed, PackFault>
    requires column { MayBePacked column.now }
    requires blocks { IsBlocks block interval }
    ensures { IsPacked (ToCoded block interval) column.now kind result }
{
    match pack_coded_below(alloc, column, kind, block, interval, None) {
        Ok(Some(packed)) => Ok(packed),
        Ok(None) => unreachable!(),
        Err(fault) => Err(fault),
    }
}

/// The same sections; none where they have `below` octets or more, which is known before Section 7 is written.
///
/// # Errors
///
/// As those of [`pack_coded`].
pub fn pack_coded_below(
    alloc: Global,
    column: &Column,
    kind: u8,
    block: u8,
    interval: u16,
    below: Option<u64>,
) -> Result<Option<Packed>, PackFault>
    requires column { MayBePacked column.now }
    requires blocks { IsBlocks block interval }
    ensures packed { IsPackedBelow (ToCoded block interval) column.now kind below result }
    ensures fewer { IfOk result (λ found. IfSome found (AreBelow below)) }
{
    let points = column.points.as_slice();
    let survey = Survey::of(points, MOST);
    survey.fits()?;
    let coding = coding_to(survey.greatest, block, interval);
    let numbers = numbers_to_code(alloc, points, survey.present, coding.bits)?;
    let octets6 = bitmap_octets(points.len() as u32, survey.missing);
    let octets7 = octets_of_blocks(&numbers, &coding);
    let octets = u64::from(REPRESENTATION_OCTETS) + u64::from(octets6) + u64::from(octets7);
    if is_reached(octets, below) {
        return Ok(None);
    }
    let section5 = room_for(alloc, REPRESENTATION_OCTETS)?;
    let section6 = room_for(alloc, octets6)?;
    let section7 = room_for(alloc, octets7)?;
    Ok(Some(Packed {
        section5: coded_representation(column, survey.present, kind, &coding, section5),
        section6: bitmap_section(points, survey.present, survey.missing, section6),
        section7: blocks_section(&numbers, &coding, octets7, section7),
    }))
}

/// How numbers up to this one are coded.
fn coding_to(greatest: u64, block: u8, interval: u16) -> Coding
    ensures { result ≡ record { bits = digits greatest; flags = 14; block = block; interval = interval } }
{
    Coding {
        bits: bit_length(greatest) as u8,
        flags: FLAGS,
        block,
        interval,
    }
}

/// Whether so many octets are not below the bound.
fn is_reached(octets: u64, below: Option<u64>) -> bool
    ensures reached { result ≡ true → IsSomeAnd below (λ most. most ≤ octets) }
    ensures fewer { result ≡ false → IfSome below (λ most. octets < most) }
{
    match below {
        Some(most) => most <= octets,
        None => false,
    }
}

/// The numbers of the points that are not missing, where numbers have this many bits: none, where they have no bits.
///
/// # Errors
///
/// There is no memory for them.
fn numbers_to_code(
    alloc: Global,
    points: &[Point],
    present: u32,
    bits: u8,
) -> Result<Vec<u32>, AllocError>
    requires { All (λ number. number < 2 ^ 32) (simple_numbers points.now) }
    ensures { IfOk result (λ numbers. AreToCode bits points.now numbers.items) }
{
    if bits == 0 {
        return Ok(Vec::new(alloc));
    }
    present_numbers(alloc, points, present)
}

/// The numbers of the points that are not missing, which are so many.
///
/// # Errors
///
/// There is no memory for them.
fn present_numbers(alloc: Global, points: &[Point], present: u32) -> Result<Vec<u32>, AllocError>
    requires { All (λ number. number < 2 ^ 32) (simple_numbers points.now) }
    ensures { IfOk result (λ numbers. numbers.items ≡ simple_numbers points.now) }
{
    let mut numbers = Vec::with_capacity(alloc, present as usize)?;
    for point in points {
        if let Point::Scaled(x) = *point {
            numbers.push(x.unsigned_abs() as u32)?;
        }
    }
    Ok(numbers)
}
