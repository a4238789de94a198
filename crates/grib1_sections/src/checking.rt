//! The rules of the profile that decide whether a section is accepted.

ghost use Rattle.std.specs.Prelude.{◌≡◌, ◌+◌, ◌-◌, ◌*◌, ◌≤◌, ◌<◌, ◌^◌, true, false, length, sum, take, drop, Some, None, MatchResult, MatchOption, OnOk};
ghost use Rattle.grib_bits.specs.Listed.{numbers_at};
ghost use Rattle.grib_base.specs.Rules.{first_fault, first_fault_at};
ghost use Rattle.grib2_sections.specs.Template.{is_template, least_length as least_of};
ghost use Rattle.grib_bitmap.specs.Mask.{present_count};
ghost use Rattle.grib1_sections.specs.Identification.{identification_rules};
ghost use Rattle.grib1_sections.specs.Grid as grid;
ghost use Rattle.grib1_sections.specs.Grid.{grid_types, grid_rules, grid_points};
ghost use Rattle.grib1_sections.specs.Bitmap.{bitmap_rules, mask_of};
ghost use Rattle.grib1_sections.specs.Data.{data_rules};
ghost use Rattle.grib_base.specs.Faults.{IsReadFault};
ghost use Rattle.grib1_sections.specs.Known.{HasRows};

use crate::frame::Placed;
use grib_base::{Fault, MOST_POINTS, ReadFault, Reason};
use grib_bitmap::{Mask, ones};
use grib_bits::{has_bit, u8_at, u16_at};
use std::alloc::Global;

/// Tries the rule of Section 1.
pub(crate) fn check_identification(section: &Placed<'_>) -> Result<(), Fault>
    requires start { section.now.start < 2 ^ 63 }
    requires long { 28 ≤ length section.now.octets.now }
    ensures { MatchResult result
        (λ _. first_fault_at section.now.start (identification_rules section.now.octets.now) ≡ None)
        (λ fault. first_fault_at section.now.start (identification_rules section.now.octets.now)
        ≡ Some fault) }
{
    let flags = u8_at(section.octets, 8);
    if !has_bit(flags, 1) {
        return Err(section.refusal(8, Reason::NoGridSection, u64::from(flags)));
    }
    Ok(())
}

/// The least length in octets of a section with a grid of this type, if the profile has it.
fn least_length(grid_type: u8) -> Option<usize>
    ensures { MatchOption result (is_template grid_types grid_type ≡ false)
        (λ least. (is_template grid_types grid_type ≡ true)
        × (least ≡ least_of grid_types grid_type)) }
{
    match grid_type {
        0 | 4 | 5 => Some(32),
        1 => Some(34),
        3 => Some(40),
        _ => None,
    }
}

/// Tries the rules of Section 2. The answer is its number of points.
pub(crate) fn check_grid(section: &Placed<'_>) -> Result<u32, Fault>
    requires start { section.now.start < 2 ^ 63 }
    requires long { 6 ≤ length section.now.octets.now }
    ensures { MatchResult result
        (λ points. (first_fault_at section.now.start (grid_rules section.now.octets.now) ≡ None)
        × (points ≡ grid_points section.now.octets.now))
        (λ fault. first_fault_at section.now.start (grid_rules section.now.octets.now) ≡ Some fault) }
{
    let octets = section.octets;
    let grid_type = u8_at(octets, 6);
    let Some(least) = least_length(grid_type) else {
        return Err(section.refusal(6, Reason::GridType, u64::from(grid_type)));
    };
    if octets.len() < least {
        return Err(section.refusal(1, Reason::SectionLength, octets.len() as u64));
    }
    check_lists(section, least)?;
    let points = count_points(octets);
    if points == 0 || points > u64::from(MOST_POINTS) {
        return Err(section.refusal(7, Reason::PointCount, points));
    }
    Ok(points as u32)
}

/// Tries the rules of Section 2 that speak of its lists, where its kind has this least length.
fn check_lists(section: &Placed<'_>, least: usize) -> Result<(), Fault>
    requires start { section.now.start < 2 ^ 63 }
    requires long { 32 ≤ length section.now.octets.now }
    requires least { least ≡ least_of grid_types (grid.grid_type section.now.octets.now) }
    ensures rules { MatchResult result
        (λ _. first_fault (take 4 (drop 2 (grid_rules section.now.octets.now))) ≡ None)
        (λ fault. first_fault_at section.now.start
        (take 4 (drop 2 (grid_rules section.now.octets.now))) ≡ Some fault) }
    ensures list { OnOk result (HasRows section.now.octets.now) }
{
    let octets = section.octets;
    if u16_at(octets, 9) == u16::MAX {
        return Err(section.refusal(9, Reason::ListShape, 65535));
    }
    let place = u8_at(octets, 5);
    let listed = lists_rows(octets);
    if listed && is_regular(u8_at(octets, 6)) {
        return Err(section.refusal(7, Reason::ListShape, 65535));
    }
    if listed && place == 255 {
        return Err(section.refusal(5, Reason::ListShape, 255));
    }
    let has_list = place != 255 && (u8_at(octets, 4) > 0 || listed);
    if has_list && (place as usize <= least || lists_end(octets) > octets.len()) {
        return Err(section.refusal(5, Reason::ListShape, u64::from(place)));
    }
    Ok(())
}

/// Whether the rows of a grid of this type have the same number of points each.
fn is_regular(grid_type: u8) -> bool
    ensures { result ≡ grid.is_regular grid_type }
{
    matches!(grid_type, 1 | 3 | 5)
}

/// Whether the numbers of points of the rows stand in a list.
fn lists_rows(octets: &[u8]) -> bool
    requires { 32 ≤ length octets.now }
    ensures { result ≡ grid.lists_rows octets.now }
{
    u16_at(octets, 7) == u16::MAX
}

/// How many numbers of points the list of rows has.
fn row_count(octets: &[u8]) -> usize
    requires { 32 ≤ length octets.now }
    ensures count { result ≡ grid.row_count octets.now }
    ensures few { result < 2 ^ 16 }
{
    if lists_rows(octets) {
        u16_at(octets, 9) as usize
    } else {
        0
    }
}

/// The last octet of the lists.
fn lists_end(octets: &[u8]) -> usize
    requires long { 32 ≤ length octets.now }
    requires counted { 1 ≤ grid.list_place octets.now }
    ensures { result ≡ grid.lists_end octets.now }
{
    let before = u8_at(octets, 5) as usize - 1;
    before + 4 * u8_at(octets, 4) as usize + 2 * row_count(octets)
}

/// The number of grid points, by the list of rows or else by Ni and Nj.
fn count_points(octets: &[u8]) -> u64
    requires long { 32 ≤ length octets.now }
    requires list { HasRows octets.now }
    ensures { result ≡ grid_points octets.now }
{
    if !lists_rows(octets) {
        return u64::from(u16_at(octets, 7)) * u64::from(u16_at(octets, 9));
    }
    let first = u8_at(octets, 5) as usize + 4 * u8_at(octets, 4) as usize;
    sum_rows(octets, first, u16_at(octets, 9))
}

/// The sum of `count` numbers of two octets each, from octet `first` on.
fn sum_rows(octets: &[u8], first: usize, count: u16) -> u64
    requires counted { 1 ≤ first }
    requires near { first < 2 ^ 16 }
    requires within { first - 1 + 2 * count ≤ length octets.now }
    ensures { result ≡ sum (numbers_at octets.now first 2 count) }
{
    let mut points = 0u64;
    for row in 0..count as usize {
        points += u64::from(u16_at(octets, first + 2 * row));
    }
    points
}

/// Tries the rules of Section 3, where the grid has `points` points. The answer is how many are present.
pub(crate) fn check_bitmap(
    alloc: Global,
    section: &Placed<'_>,
    points: u32,
) -> Result<u32, ReadFault>
    requires start { section.now.start < 2 ^ 63 }
    requires long { 6 ≤ length section.now.octets.now }
    ensures { MatchResult result
        (λ present. (first_fault_at section.now.start (bitmap_rules points section.now.octets.now)
        ≡ None) × (present ≡ present_count (mask_of (Some section.now.octets.now) points)))
        (IsReadFault (first_fault_at section.now.start
        (bitmap_rules points section.now.octets.now))) }
{
    let octets = section.octets;
    let number = u16_at(octets, 5);
    if number != 0 {
        return Err(
            section
                .refusal(5, Reason::BitmapIndicator, u64::from(number))
                .into(),
        );
    }
    if octets.len() - 6 < points.div_ceil(8) as usize {
        return Err(
            section
                .refusal(1, Reason::BitmapSize, octets.len() as u64)
                .into(),
        );
    }
    let mask = Mask::of_octets(alloc, &octets[6..], points)?;
    Ok(ones(&mask))
}

/// Tries the rules of Section 4, where `present` points are present.
pub(crate) fn check_data(section: &Placed<'_>, present: u32) -> Result<(), Fault>
    requires start { section.now.start < 2 ^ 63 }
    requires long { 11 ≤ length section.now.octets.now }
    ensures { MatchResult result
        (λ _. first_fault_at section.now.start (data_rules present section.now.octets.now) ≡ None)
        (λ fault. first_fault_at section.now.start (data_rules present section.now.octets.now)
        ≡ Some fault) }
{
    let octets = section.octets;
    let flags = u8_at(octets, 4);
    if has_bit(flags, 1) {
        return Err(section.refusal(4, Reason::Harmonics, u64::from(flags)));
    }
    if has_bit(flags, 2) {
        return Err(section.refusal(4, Reason::SecondOrder, u64::from(flags)));
    }
    if has_bit(flags, 4) {
        return Err(section.refusal(4, Reason::ExtraFlags, u64::from(flags)));
    }
    let bits = u8_at(octets, 11);
    if bits > 48 {
        return Err(section.refusal(11, Reason::BitWidth, u64::from(bits)));
    }
    let least = (u64::from(present) * u64::from(bits)).div_ceil(8);
    if (octets.len() as u64) < 11 + least {
        return Err(section.refusal(1, Reason::DataTooShort, octets.len() as u64));
    }
    Ok(())
}
