//! Sections 5, 6 and 7: the packed numbers and the bitmap, moved by octets.

ghost use Rattle.std.specs.Prelude.{◌≡◌, ◌+◌, ◌*◌, ◌^◌, ◌≤◌, ◌<◌, ◌++◌, None, length, option_copied, MatchResult, OnOk};
ghost use Rattle.grib1_sections.specs.Frame.{section_length};
ghost use Rattle.grib1_sections.specs.Data.{bit_width};
ghost use Rattle.grib_bits.specs.Encoding.{section_of, all_octets};
ghost use Rattle.grib_migrate.specs.Values as spec;
ghost use Rattle.grib_migrate.specs.Losses.{reference_loss};
ghost use Rattle.grib_migrate.specs.Held.{HoldsBits};
ghost use Rattle.grib_migrate.specs.Answered.{IsMigrateFault};

use crate::reference::binary32_of;
use crate::{Loss, MigrateFault};
use grib_base::MOST_POINTS;
use grib_bits::Number::{Four, One, Two};
use grib_bits::{add_numbers, add_section, add_section_head, has_bit, u8_at, u16_at, u32_at};
use std::alloc::{AllocError, Global};

/// Octet 6 and further of Section 5, with this number of present points, or the loss where the reference value has
/// no binary32 word.
pub(crate) fn packing_octets(
    alloc: Global,
    section1: &[u8],
    section4: &[u8],
    values: u32,
) -> Result<Vec<u8>, MigrateFault>
    requires identification { 28 ≤ length section1.now }
    requires numbers { 11 ≤ length section4.now }
    ensures { MatchResult result
        (λ octets. (reference_loss section4.now ≡ None) × (octets.items
        ≡ all_octets (spec.packing_numbers section1.now section4.now values))
        × (length octets.items ≤ 100))
        (IsMigrateFault (reference_loss section4.now)) }
{
    let reference = binary32_of(u32_at(section4, 7)).ok_or(Loss::Reference)?;
    let kind = u8::from(has_bit(u8_at(section4, 4), 3));
    let mut octets = Vec::new(alloc);
    add_numbers(
        &[
            Four(values),
            Two(0),
            Four(reference),
            Two(u32::from(u16_at(section4, 5))),
            Two(u32::from(u16_at(section1, 27))),
            One(u8_at(section4, 11)),
            One(kind),
        ],
        &mut octets,
    )?;
    Ok(octets)
}

/// Adds the first `bits` bits of some octets, with zeros up to the end of an octet.
fn add_front(from: &[u8], bits: usize, out: &mut Vec<u8>) -> Result<(), AllocError>
    requires { bits ≤ 8 * length from.now }
    ensures { OnOk result (out.new.items ≡ out.old.items ++ spec.front_octets from.now bits) }
{
    let whole = bits / 8;
    out.extend_from_slice(&from[..whole])?;
    let rest = bits % 8;
    if rest == 0 {
        return Ok(());
    }
    let last = from[whole];
    out.push(last - last % (1 << (8 - rest)))?;
    Ok(())
}

/// Adds Section 6: no bitmap, or the bits for this number of points.
pub(crate) fn add_bitmap(
    section3: Option<&[u8]>,
    points: u32,
    out: &mut Vec<u8>,
) -> Result<(), AllocError>
    requires bits { HoldsBits (option_copied section3) points }
    requires few { points ≤ MOST_POINTS }
    ensures { OnOk result (out.new.items
        ≡ out.old.items ++ section_of 6 (spec.bitmap_octets (option_copied section3.entry) points)) }
{
    let Some(section3) = section3 else {
        return add_section(6, &[255], out);
    };
    let points = points as usize;
    add_section_head(6, 1 + points.div_ceil(8), out)?;
    out.push(0)?;
    add_front(&section3[6..], points, out)
}

/// Adds Section 7: the numbers of the present points.
pub(crate) fn add_data(section4: &[u8], values: u32, out: &mut Vec<u8>) -> Result<(), AllocError>
    requires head { 11 ≤ length section4.now }
    requires numbers { values * bit_width section4.now + 88 ≤ 8 * length section4.now }
    requires stands { section_length section4.now ≡ length section4.now }
    ensures { OnOk result (out.new.items
        ≡ out.old.items ++ section_of 7 (spec.data_octets section4.now values)) }
{
    let bits = data_bits(section4, values);
    add_section_head(7, bits.div_ceil(8), out)?;
    add_front(&section4[11..], bits, out)
}

/// The bits of the numbers of the present points.
pub(crate) fn data_bits(section4: &[u8], values: u32) -> usize
    requires head { 11 ≤ length section4.now }
    ensures { result ≡ values * bit_width section4.now }
{
    values as usize * usize::from(u8_at(section4, 11))
}
