//! The column of a field.

ghost use Rattle.std.specs.Prelude.{◌≡◌, ◌≤◌, ℕ, List, None, length, IfOk};
ghost use Rattle.grib_base.specs.Rules.{first_fault};
ghost use Rattle.grib_bitmap.specs.Mask.{bitmap_rules, mask_of, present_count};
ghost use Rattle.grib_packing.specs.Entries.{column_from, entries_of};
ghost use Rattle.grib_packing.specs.Packing.{value_count};
ghost use Rattle.grib_packings.specs.Field.{Represents};
ghost use Rattle.grib2_sections.specs.Frame.{Placed};
ghost use Rattle.grib2_message.specs.View as definitions;
ghost use Rattle.grib2_message.specs.View.{octets_in_force, points_in_force, mask_in_force};
ghost use Rattle.grib2_message.specs.Kept.{IsField, IsRead};

use crate::places::{Places, section_from};
use grib_base::{ReadFault, Section};
use grib_bitmap::{Mask, read_mask};
use grib_bits::u8_at;
use grib_packing::{Column, Keeper};
use grib_packings::{DataRepresentation, Representation};
use std::alloc::{AllocError, Global};

/// The indicator of a Section 6 that repeats an earlier bitmap (code table 6.0).
const REPEATS: u8 = 254;

/// The column of the field for which the sections in force begin at these places.
pub(crate) fn column_at(alloc: Global, octets: &[u8], places: &Places) -> Result<Column, AllocError>
    requires { (before : List Placed) × IsField octets.now before places.now × IsRead before }
    ensures column { (before : List Placed) → IsField octets.now before places.now → IfOk result
        (λ column. column ≡ column_from (octets_in_force 5 before) (mask_in_force before)
        (octets_in_force 7 before)) }
    ensures some { (before : List Placed) → IsField octets.now before places.now → IfOk result
        (λ column. 1 ≤ length column.points) }
    ensures few { (before : List Placed) → IsField octets.now before places.now → IfOk result
        (λ column. length column.points ≤ 33554432) }
    ensures long { (before : List Placed) → IsField octets.now before places.now → IfOk result
        (λ column. length column.points ≡ points_in_force before) }
{
    let mask = mask_at(alloc, octets, places)?;
    let representation = representation_at(places);
    match representation.unpack(alloc, &mask, &places.section(octets, 7)) {
        Ok(column) => Ok(column),
        Err(ReadFault::Memory) => Err(AllocError),
        Err(ReadFault::Refused(_)) => unreachable!(),
    }
}

/// Hands the points of the values of that field on, in their order.
pub(crate) fn take_values_at<K: Keeper + Drop>(
    alloc: Global,
    octets: &[u8],
    places: &Places,
    keeper: K,
) -> Result<K, AllocError>
    requires { (before : List Placed) × IsField octets.now before places.now × IsRead before }
    ensures { (before : List Placed) → IsField octets.now before places.now → IfOk result
        (λ after. K.kept keeper (entries_of (octets_in_force 5 before) (octets_in_force 7 before)) after
        × (length (entries_of (octets_in_force 5 before) (octets_in_force 7 before))
        ≡ value_count (octets_in_force 5 before))) }
{
    let representation = representation_at(places);
    match representation.take_values(alloc, &places.section(octets, 7), keeper) {
        Ok(after) => Ok(after),
        Err(ReadFault::Memory) => Err(AllocError),
        Err(ReadFault::Refused(_)) => unreachable!(),
    }
}

/// What Section 5 says of that field, the values of which can be read.
fn representation_at(places: &Places) -> &Representation
    requires { (message : List ℕ) × (before : List Placed) × IsField message before places.now × IsRead before }
    ensures { (message : List ℕ) (before : List Placed) → IsField message before places.now
        → Represents result.now (octets_in_force 5 before) }
{
    match places.force.representation() {
        DataRepresentation::Read(representation) => representation,
        DataRepresentation::Opaque(_) => unreachable!(),
    }
}

/// Which points of that field are present.
pub(crate) fn mask_at(alloc: Global, octets: &[u8], places: &Places) -> Result<Mask, AllocError>
    requires { (before : List Placed) × IsField octets.now before places.now }
    ensures { (before : List Placed) → IsField octets.now before places.now → IfOk result
        (λ mask. (mask ≡ mask_in_force before) × (length mask ≡ points_in_force before)
        × (present_count mask ≡ value_count (octets_in_force 5 before))) }
{
    let section = places.section(octets, 6);
    if u8_at(section.octets, 6) != REPEATS {
        let values = places.force.representation().values();
        return accepted_mask(alloc, &section, places.force.points, values);
    }
    let Some(bitmap) = places.force.bitmap else {
        unreachable!();
    };
    let earlier = section_from(octets, bitmap.start, 6);
    accepted_mask(alloc, &earlier, bitmap.points, bitmap.present)
}

/// The Section 6 with the bits of that field.
pub(crate) fn own_bitmap<'a>(octets: &'a [u8], places: &Places) -> Section<'a>
    requires { (before : List Placed) × IsField octets.now before places.now }
    ensures octets { (before : List Placed) → IsField octets.now before places.now
        → result.octets.now ≡ definitions.own_bitmap before }
    ensures start { (before : List Placed) → IsField octets.now before places.now
        → result.start ≡ definitions.own_bitmap_start before }
    ensures number { result.number ≡ 6 }
{
    let section = places.section(octets, 6);
    if u8_at(section.octets, 6) != REPEATS {
        return section;
    }
    let Some(bitmap) = places.force.bitmap else {
        unreachable!();
    };
    section_from(octets, bitmap.start, 6)
}

/// The mask of a Section 6 that no rule refuses where there is no earlier bitmap.
fn accepted_mask(
    alloc: Global,
    section: &Section<'_>,
    points: u32,
    values: u32,
) -> Result<Mask, AllocError>
    requires accepted { first_fault (bitmap_rules section.now.octets.now points values None) ≡ None }
    ensures { IfOk result (λ mask. mask ≡ mask_of section.now.octets.now points None) }
{
    match read_mask(alloc, section, points, values, None) {
        Ok(mask) => Ok(mask),
        Err(ReadFault::Memory) => Err(AllocError),
        Err(ReadFault::Refused(_)) => unreachable!(),
    }
}
