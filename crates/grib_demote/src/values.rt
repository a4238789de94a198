//! Sections 3 and 4: the bitmap and the numbers.

ghost use Rattle.std.specs.Prelude.{◌≡◌, ◌+◌, ◌*◌, ◌^◌, ◌≤◌, ◌<◌, ◌++◌, length, OnOk, IfOk};
ghost use Rattle.grib_demote.specs.Values as values;
ghost use Rattle.grib_demote.specs.Held.{HoldsPacked};

use crate::word::ibm_of;
use grib_bits::Number::{Four, One, Two};
use grib_bits::{Number, add_numbers, add_section1, u8_at, u16_at, u32_at};
use grib_packing::Packed;
use std::alloc::{AllocError, Global};

/// Whether a point is missing.
pub(crate) fn has_bitmap(packed: &Packed) -> bool
    requires { HoldsPacked packed.now }
    ensures { result ≡ values.has_bitmap packed.now }
{
    u8_at(packed.section6.as_slice(), 6) != 255
}

/// The bits that fill a section of this many bits up to an even number of octets.
fn padding(bits: u64) -> u8
    ensures { result ≡ values.padding bits }
{
    ((16 - bits % 16) % 16) as u8
}

/// Adds a zero where the contents of a section have an even number of octets.
fn even_out(contents: &mut Vec<u8>) -> Result<(), AllocError>
    ensures { OnOk result (contents.new.items ≡ values.evened contents.old.items) }
{
    if contents.len() % 2 == 0 {
        contents.push(0)?;
    }
    Ok(())
}

/// Octet 4 and further of Section 3, for this number of points.
fn bitmap_octets(alloc: Global, packed: &Packed, points: u32) -> Result<Vec<u8>, AllocError>
    requires { HoldsPacked packed.now }
    ensures { IfOk result (λ octets. octets.items ≡ values.bitmap_octets packed.now points) }
{
    let mut octets = Vec::new(alloc);
    add_numbers(&[One(padding(48 + u64::from(points))), Two(0)], &mut octets)?;
    octets.extend_from_slice(&packed.section6.as_slice()[6..])?;
    even_out(&mut octets)?;
    Ok(octets)
}

/// Octet 4 and further of Section 4, of a field with this Section 5.
pub(crate) fn data_octets(
    alloc: Global,
    section5: &[u8],
    packed: &Packed,
) -> Result<Vec<u8>, AllocError>
    requires long { 21 ≤ length section5.now }
    requires packed { HoldsPacked packed.now }
    ensures { IfOk result (λ octets. octets.items ≡ values.data_octets section5.now packed.now) }
{
    let mut octets = Vec::new(alloc);
    add_numbers(&packing_numbers(section5, packed), &mut octets)?;
    octets.extend_from_slice(&packed.section7.as_slice()[5..])?;
    even_out(&mut octets)?;
    Ok(octets)
}

/// The numbers of octets 4 to 11 of Section 4.
fn packing_numbers(section5: &[u8], packed: &Packed) -> [Number; 4]
    requires long { 21 ≤ length section5.now }
    requires packed { HoldsPacked packed.now }
    ensures { result ≡ values.packing_numbers section5.now packed.now }
{
    let new = packed.section5.as_slice();
    let width = u8_at(new, 20);
    let bits = u64::from(u32_at(new, 6)) * u64::from(width);
    let is_whole = u8_at(section5, 21) == 1;
    [
        One(32 * u8::from(is_whole) + padding(88 + bits)),
        Two(u32::from(u16_at(section5, 16))),
        Four(ibm_of(u32_at(section5, 12)).unwrap_or(0)),
        One(width),
    ]
}

/// Adds Section 3, where a point is missing, for this number of points.
pub(crate) fn add_bitmap(
    alloc: Global,
    packed: &Packed,
    points: u32,
    out: &mut Vec<u8>,
) -> Result<(), AllocError>
    requires { HoldsPacked packed.now }
    ensures { OnOk result (out.new.items ≡ out.old.items ++ values.bitmap_section packed.now points) }
{
    if !has_bitmap(packed) {
        return Ok(());
    }
    let octets = bitmap_octets(alloc, packed, points)?;
    add_section1(octets.as_slice(), out)
}
