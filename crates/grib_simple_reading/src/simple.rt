//! Sections 5 and 7 of simple packing.

ghost use Rattle.std.specs.Prelude.{◌≡◌, ℕ, ◌+◌, ◌-◌, ◌*◌, ◌≤◌, nat_lt, List as Octets, length, map, pos, None, Some, IfOk, OnOk, MatchResult};
ghost use Rattle.grib_base.specs.Rules.{located};
ghost use Rattle.grib_bits.specs.Bits.{bits as bits_in};
ghost use Rattle.grib_bits.specs.Plain.{plain};
ghost use Rattle.grib_bitmap.specs.Mask.{present_count};
ghost use Rattle.grib_packing.specs.declared.column.Point.TheVariants.{Scaled};
ghost use Rattle.grib_packing.specs.Column.{points_with_mask};
ghost use Rattle.grib_packing.specs.Entries.{data_fault};
ghost use Rattle.grib_packing.specs.Packing.{packing_template};
ghost use Rattle.grib_packing.specs.Representation.{Spelled};
ghost use Rattle.grib_packing.specs.Unpacked.{IsUnpacked};

use crate::numbers::{masked_points, unpack_points};
use grib_base::{Fault, ReadFault, Reason, Section};
use grib_bitmap::Mask;
use grib_packing::{Column, Point, Simple};
use std::alloc::{AllocError, Global};

/// The column of a field in simple packing, from the numbers of its Section 5, its mask and its Section 7.
///
/// # Errors
///
/// Section 7 is too short for its numbers, or there is no memory.
pub fn unpack_simple(
    alloc: Global,
    simple: &Simple,
    mask: &Mask,
    section7: &Section<'_>,
) -> Result<Column, ReadFault>
    requires width { simple.now.bits ≤ 48 }
    requires values { present_count mask.now ≡ simple.now.values }
    ensures { (s5 : Octets ℕ) → Spelled simple.now s5 → packing_template s5 ≡ 0
        → IsUnpacked s5 mask.now section7.now.start section7.now.octets.now result }
{
    check_simple(simple, section7)?;
    let octets = &section7.octets[5..];
    let points = present_points(alloc, octets, u32::from(simple.bits), simple.values, mask)?;
    Ok(simple.column(points))
}

/// Tries the rule of a Section 7 in simple packing, from the numbers of its Section 5.
///
/// # Errors
///
/// Section 7 is too short for its numbers.
pub fn check_simple(simple: &Simple, section7: &Section<'_>) -> Result<(), Fault>
    ensures room { OnOk result (simple.now.bits * simple.now.values ≤ 8 * (length section7.now.octets.now - 5)) }
    ensures rule { (s5 : Octets ℕ) → Spelled simple.now s5 → packing_template s5 ≡ 0 → MatchResult result
        (λ _. data_fault s5 section7.now.octets.now ≡ None)
        (λ fault. located section7.now.start (data_fault s5 section7.now.octets.now) ≡ Some fault) }
{
    let length = section7.octets.len() as u64;
    if is_too_short(simple, length) {
        return Err(Fault::at(section7.start, Reason::DataTooShort, length));
    }
    Ok(())
}

/// Whether a Section 7 of this many octets is too short for its numbers in simple packing.
pub fn is_too_short(simple: &Simple, length: u64) -> bool
    ensures { result ≡ nat_lt (8 * length) (simple.now.values * simple.now.bits + 40) }
{
    let bits = u64::from(simple.values) * u64::from(simple.bits);
    length < 5 + bits.div_ceil(8)
}

/// The points of a mask in which `values` points are present, with as many numbers from the first bit on.
fn present_points(
    alloc: Global,
    octets: &[u8],
    bits: u32,
    values: u32,
    mask: &Mask,
) -> Result<Vec<Point>, AllocError>
    requires width { bits ≤ 48 }
    requires within { bits * values ≤ 8 * length octets.now }
    requires present { present_count mask.now ≡ values }
    ensures { IfOk result (λ points. points.items ≡ points_with_mask mask.now
        (map (λ x. Scaled (pos x)) (plain (bits_in octets.now) bits values))) }
{
    if values == mask.len() {
        unpack_points(alloc, octets, bits, values)
    } else {
        masked_points(alloc, octets, bits, mask)
    }
}
