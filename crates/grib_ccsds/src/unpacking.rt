//! The values of a field in CCSDS packing, from a whole Section 7.

ghost use Rattle.std.specs.Prelude.{◌≡◌, ℕ, ◌≤◌, List as Octets, length, Some, None, MatchResult};
ghost use Rattle.grib_base.specs.Rules.{located};
ghost use Rattle.grib_packing.specs.Entries.{data_fault, entries_of, packing_fault};
ghost use Rattle.grib_packing.specs.Kept.{PointsKept};
ghost use Rattle.grib_packing.specs.Packing.{packing_template, value_count};
ghost use Rattle.grib_packing.specs.Unpacked.{IsUnpacked, MayBeUnpacked};
ghost use Rattle.grib_block_feeding.specs.Representation.{Spelled};

use byteorder::{BigEndian, ByteOrder};
use grib_base::{Fault, ReadFault, Section};
use grib_bitmap::Mask;
use grib_block_feeding::{Coded, FedBlocks, coded_of, fault_of_blocks, keep_zeros};
use grib_packing::{Column, Points, numbers_of};
use std::alloc::Global;

/// The column of a field in CCSDS packing, from its Section 5, which is accepted, its mask and its Section 7.
///
/// # Errors
///
/// Section 7 is refused by the first rule of the profile that fails, or there is no memory.
pub(crate) fn unpack_coded(
    alloc: Global,
    section5: &Section<'_>,
    mask: &Mask,
    section7: &Section<'_>,
) -> Result<Column, ReadFault>
    requires { MayBeUnpacked 42 section5.now.octets.now mask.now }
    ensures { IsUnpacked section5.now.octets.now mask.now section7.now.start section7.now.octets.now result }
{
    let coded = accepted_coded(section5, mask.len());
    let points = Points::start(alloc, mask.copy(alloc)?)?;
    let points = take_values(coded, section7, points)?;
    Ok(coded.simple.column(points.finish()))
}

/// What a Section 5 says of CCSDS packing that is accepted for a grid of this many points.
fn accepted_coded(section: &Section<'_>, points: u32) -> Coded
    requires accepted { packing_fault section.now.octets.now points ≡ None }
    requires template { packing_template section.now.octets.now ≡ 42 }
    ensures spelled { Spelled result section.now.octets.now }
    ensures few { result.simple.values ≤ points }
{
    let Ok(coded) = coded_of(numbers_of(section.octets), section) else {
        unreachable!();
    };
    coded
}

/// Hands on the points of all values of a field, in their order, from its Section 7, which is fed in one piece. Numbers of
/// no bits are 0, and Section 7 is not read.
///
/// # Errors
///
/// Section 7 is refused by the first rule of the profile that fails. What keeps the points is dropped.
fn take_values(coded: Coded, section7: &Section<'_>, points: Points) -> Result<Points, Fault>
    requires accepted { (s5 : Octets ℕ) × (points : ℕ) × Spelled coded s5 × (packing_template s5 ≡ 42) × (packing_fault s5 points ≡ None) }
    requires few { coded.simple.values ≤ 33554432 }
    ensures { (s5 : Octets ℕ) (count : ℕ) → Spelled coded s5 → packing_template s5 ≡ 42 → packing_fault s5 count ≡ None
        → MatchResult result
        (λ after. (data_fault s5 section7.now.octets.now ≡ None)
        × PointsKept points (entries_of s5 section7.now.octets.now) after
        × (length (entries_of s5 section7.now.octets.now) ≡ value_count s5))
        (λ fault. located section7.now.start (data_fault s5 section7.now.octets.now) ≡ Some fault) }
{
    let values = coded.simple.values;
    if coded.simple.bits == 0 {
        return Ok(keep_zeros(points, values));
    }
    let length = length_of_section(section7);
    let fed = FedBlocks::start(&coded.coding, values, points);
    let fed = fed.push(&section7.octets[5..]);
    match fed.finish() {
        Ok(points) => Ok(points),
        Err(fault) => Err(fault_of_blocks(fault, section7.start, u64::from(length))),
    }
}

/// The length that a section states, which is its own.
fn length_of_section(section: &Section<'_>) -> u32
    ensures { result ≡ length section.now.octets.now }
{
    BigEndian::read_u32(section.octets)
}
