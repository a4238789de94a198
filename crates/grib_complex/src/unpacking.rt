//! The values of a field in complex packing, from a whole Section 7.

ghost use Rattle.std.specs.Prelude.{◌≡◌, ◌⊎◌, ℕ, ◌≤◌, List, length as length_of, None, MatchResult};
ghost use Rattle.grib_base.specs.Faults.{IsReadFault};
ghost use Rattle.grib_base.specs.Rules.{located};
ghost use Rattle.grib_bitmap.specs.Mask.{present_count};
ghost use Rattle.grib_packing.specs.Entries.{packing_fault, data_fault, entries_of};
ghost use Rattle.grib_packing.specs.Packing.{packing_template, value_count};
ghost use Rattle.grib_packing.specs.Unpacked.{IsUnpacked};
ghost use Rattle.grib_complex_reading.specs.Descriptors.{IsAccepted};
ghost use Rattle.grib_complex_reading.specs.Representation.{Spelled};

use grib_base::{ReadFault, Section};
use grib_bitmap::Mask;
use grib_complex_reading::{Complex, ComplexReading, accepted_complex, length_of_section};
use grib_packing::{Column, Keeper, Points};
use std::alloc::Global;

/// The column of a field in complex packing, from its Section 5, which is accepted, its mask and its Section 7.
pub(crate) fn unpack_complex(
    alloc: Global,
    section5: &Section<'_>,
    mask: &Mask,
    section7: &Section<'_>,
) -> Result<Column, ReadFault>
    requires accepted { packing_fault section5.now.octets.now (length_of mask.now) ≡ None }
    requires template { (packing_template section5.now.octets.now ≡ 2) ⊎ (packing_template section5.now.octets.now ≡ 3) }
    requires values { present_count mask.now ≡ value_count section5.now.octets.now }
    ensures { IsUnpacked section5.now.octets.now mask.now section7.now.start section7.now.octets.now result }
{
    let complex = accepted_complex(section5, mask.len());
    let points = Points::start(alloc, mask.copy(alloc)?)?;
    let length = length_of_section(section7);
    let points = take_values(
        alloc,
        complex,
        section7.octets,
        section7.start,
        length,
        points,
    )?;
    Ok(complex.simple.column(points.finish()))
}

/// Hands the points of all values of a field on, in their order, from the octets of its Section 7, which begins at
/// octet `start` of the message.
fn take_values<K: Keeper + Drop>(
    alloc: Global,
    complex: Complex,
    octets: &[u8],
    start: u64,
    length: u32,
    keeper: K,
) -> Result<K, ReadFault>
    requires accepted { IsAccepted complex }
    requires spelled { (s5 : List ℕ) × Spelled complex s5 }
    requires low { 1 ≤ start }
    requires high { start ≤ 268435456 }
    requires least { 5 ≤ length }
    requires all { length ≡ length_of octets.now }
    ensures { (s5 : List ℕ) → Spelled complex s5 → MatchResult result
        (λ after. (data_fault s5 octets.now ≡ None)
        × K.kept keeper (entries_of s5 octets.now) after
        × (length_of (entries_of s5 octets.now) ≡ value_count s5))
        (IsReadFault (located start (data_fault s5 octets.now))) }
{
    let reading = ComplexReading::start(alloc, complex, keeper, start, length)?;
    let reading = reading.push(alloc, &octets[5..], 0, start, length);
    Ok(reading.end(start)?)
}
