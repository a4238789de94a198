//! The rules of the profile that decide whether Section 3 is accepted.

ghost use Rattle.std.specs.Prelude.{◌≡◌, ◌+◌, ◌-◌, ◌*◌, ◌<◌, ◌≤◌, ◌==◌, true, false, if◌then◌else◌, length, take, drop, sum, Some, None, MatchResult, MatchOption, OnOk};
ghost use Rattle.grib_base.specs.Rules as acceptance;
ghost use Rattle.grib_base.specs.Rules.{first_fault, first_fault_at, fault_at};
ghost use Rattle.grib2_sections.specs.Template.{is_template, least_length as least_of};
ghost use Rattle.grib2_grids.specs.Grid.{grid_rules, grid_templates, list_octets, may_have_list, row_list};
ghost use Rattle.grib2_grids.specs.Opaque.{opaque_grid_rules};
ghost use Rattle.grib2_grids.specs.Whole.{IsWhole, HasNumbers};

use grib_base::{Fault, MOST_POINTS, Reason, Section};
use grib_bits::{u8_at, u16_at, u32_at, uint_at};

/// The least length in octets of a section with this template, if the profile has it.
pub(crate) fn least_length(template: u16) -> Option<usize>
    ensures { MatchOption result (is_template grid_templates template ≡ false)
        (λ least. (is_template grid_templates template ≡ true)
        × (least ≡ least_of grid_templates template)) }
{
    match template {
        0 | 10 | 40 => Some(72),
        1 => Some(84),
        20 => Some(65),
        30 => Some(81),
        _ => None,
    }
}

/// The octet at which the list of rows begins, for a template that may have one.
pub(crate) fn list_start(template: u16) -> Option<usize>
    ensures { MatchOption result (may_have_list template ≡ false)
        (λ first. (may_have_list template ≡ true)
        × (first ≡ (if template == 1 then 85 else 73))) }
{
    match template {
        0 | 40 => Some(73),
        1 => Some(85),
        _ => None,
    }
}

/// Tries the rules of Section 3. No memory is taken.
///
/// # Errors
///
/// The first rule of the profile that fails: the section is too short, has a grid that the profile
/// does not have or a list of rows of another shape, or states another number of points than it has.
pub fn check_grid(section: &Section<'_>) -> Result<(), Fault>
    ensures { MatchResult result
        (λ _. first_fault_at section.now.start (grid_rules section.now.octets.now) ≡ None)
        (λ fault. first_fault_at section.now.start (grid_rules section.now.octets.now)
        ≡ Some fault) }
{
    check_head(section)?;
    check_list(section)?;
    check_points(section)
}

/// Rules S3.1 to S3.5: the source, the template, the length and the number of points.
fn check_head(section: &Section<'_>) -> Result<(), Fault>
    ensures rules { MatchResult result
        (λ _. first_fault (take 5 (grid_rules section.now.octets.now)) ≡ None)
        (λ fault. first_fault_at section.now.start (take 5 (grid_rules section.now.octets.now))
        ≡ Some fault) }
    ensures template { OnOk result (IsWhole section.now.octets.now) }
{
    let octets = section.octets;
    let length = octets.len();
    if length < 14 {
        return Err(section.fault_at(1, Reason::SectionLength, length as u64));
    }
    let source = u8_at(octets, 6);
    if source != 0 {
        return Err(section.fault_at(6, Reason::GridSource, u64::from(source)));
    }
    let template = u16_at(octets, 13);
    let Some(least) = least_length(template) else {
        return Err(section.fault_at(13, Reason::GridTemplate, u64::from(template)));
    };
    if length < least {
        return Err(section.fault_at(1, Reason::SectionLength, length as u64));
    }
    check_point_count(section)
}

/// Rule S3.5: the number of points.
pub(crate) fn check_point_count(section: &Section<'_>) -> Result<(), Fault>
    requires { 14 ≤ length section.now.octets.now }
    ensures { MatchResult result
        (λ _. first_fault (drop 1 (opaque_grid_rules section.now.octets.now)) ≡ None)
        (λ fault. first_fault_at section.now.start
        (drop 1 (opaque_grid_rules section.now.octets.now)) ≡ Some fault) }
{
    let points = u32_at(section.octets, 7);
    if points == 0 || points > MOST_POINTS {
        return Err(section.fault_at(7, Reason::PointCount, u64::from(points)));
    }
    Ok(())
}

/// Rules S3.6 to S3.9: the list of rows, where there is one.
fn check_list(section: &Section<'_>) -> Result<(), Fault>
    requires { IsWhole section.now.octets.now }
    ensures rules { MatchResult result
        (λ _. first_fault (take 4 (drop 5 (grid_rules section.now.octets.now))) ≡ None)
        (λ fault. first_fault_at section.now.start
        (take 4 (drop 5 (grid_rules section.now.octets.now))) ≡ Some fault) }
    ensures list { OnOk result (HasNumbers section.now.octets.now) }
{
    let octets = section.octets;
    let size = u8_at(octets, 11);
    if size == 0 {
        return Ok(());
    }
    let meaning = u8_at(octets, 12);
    if meaning != 1 && meaning != 2 {
        return Err(section.fault_at(12, Reason::ListShape, u64::from(meaning)));
    }
    let first = match list_start(u16_at(octets, 13)) {
        Some(first) if size <= 4 => first as u64,
        _ => return Err(section.fault_at(11, Reason::ListShape, u64::from(size))),
    };
    let nj = u32_at(octets, 35);
    if nj == 0 || nj == u32::MAX {
        return Err(section.fault_at(35, Reason::ListShape, u64::from(nj)));
    }
    if first - 1 + u64::from(size) * u64::from(nj) > octets.len() as u64 {
        return Err(section.fault_at(first, Reason::ListShape, u64::from(nj)));
    }
    Ok(())
}

/// Rules S3.10 and S3.11: the number of points, by the list of rows or else by Ni and Nj.
fn check_points(section: &Section<'_>) -> Result<(), Fault>
    requires { HasNumbers section.now.octets.now }
    ensures { MatchResult result
        (λ _. first_fault (drop 9 (grid_rules section.now.octets.now)) ≡ None)
        (λ fault. first_fault_at section.now.start (drop 9 (grid_rules section.now.octets.now))
        ≡ Some fault) }
{
    let octets = section.octets;
    let points = u64::from(u32_at(octets, 7));
    let stated = if u8_at(octets, 11) == 0 {
        u64::from(u32_at(octets, 31)) * u64::from(u32_at(octets, 35))
    } else {
        total(octets)
    };
    if stated != points {
        return Err(section.fault_at(7, Reason::PointCount, stated));
    }
    Ok(())
}

/// The sum of the numbers of points of each row, which are read where they stand.
fn total(octets: &[u8]) -> u64
    requires numbers { HasNumbers octets.now }
    requires some { 0 < list_octets octets.now }
    ensures { result ≡ sum (row_list octets.now) }
{
    let Some(first) = list_start(u16_at(octets, 13)) else {
        unreachable!();
    };
    let size = usize::from(u8_at(octets, 11));
    let mut total = 0;
    for row in 0..u32_at(octets, 35) as usize {
        total += u64::from(uint_at(octets, first + row * size, size));
    }
    total
}
