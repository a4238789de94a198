//! Section 3 where any grid is accepted.

ghost use Rattle.std.specs.Prelude.{◌≡◌, ◌≤◌, length, Some, None, MatchResult};
ghost use Rattle.grib_base.specs.declared.profile.Profile.TheVariants.{Open};
ghost use Rattle.grib_base.specs.Rules.{first_fault_at};
ghost use Rattle.grib2_grids.specs.Opaque as opaque;
ghost use Rattle.grib2_grids.specs.Opaque.{grid_rules_under};

use crate::rules::{check_grid, check_point_count, least_length};
use grib_base::{Fault, Profile, Reason, Section};
use grib_bits::{u8_at, u16_at};

/// Whether a section has an opaque grid: one that octets 13-14 do not define, or one by a template that is
/// not stated.
pub fn is_opaque_grid(octets: &[u8]) -> bool
    requires { 14 ≤ length octets.now }
    ensures { result ≡ opaque.is_opaque_grid octets.now }
{
    u8_at(octets, 6) != 0 || least_length(u16_at(octets, 13)).is_none()
}

/// Tries the rules of Section 3 under a profile. No memory is taken.
///
/// # Errors
///
/// The first rule of the profile that fails, as `check_grid` tells it. Where any grid is accepted and this one
/// is opaque, the section is shorter than 14 octets, or states no points or too many.
pub fn check_grid_under(profile: Profile, section: &Section<'_>) -> Result<(), Fault>
    ensures { MatchResult result
        (λ _. first_fault_at section.now.start (grid_rules_under profile section.now.octets.now)
        ≡ None)
        (λ fault. first_fault_at section.now.start (grid_rules_under profile section.now.octets.now)
        ≡ Some fault) }
{
    match profile {
        Profile::Stated => check_grid(section),
        Profile::Open => check_any_grid(section),
    }
}

/// Tries the rules of Section 3 where any grid is accepted.
fn check_any_grid(section: &Section<'_>) -> Result<(), Fault>
    ensures { MatchResult result
        (λ _. first_fault_at section.now.start (grid_rules_under Open section.now.octets.now) ≡ None)
        (λ fault. first_fault_at section.now.start (grid_rules_under Open section.now.octets.now)
        ≡ Some fault) }
{
    let octets = section.octets;
    let length = octets.len();
    if length < 14 {
        return Err(section.fault_at(1, Reason::SectionLength, length as u64));
    }
    if !is_opaque_grid(octets) {
        return check_grid(section);
    }
    check_point_count(section)
}
