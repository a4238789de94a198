//! Section 4 where any product is accepted.

ghost use Rattle.std.specs.Prelude.{◌≡◌, ◌≤◌, length, Some, None, MatchResult};
ghost use Rattle.grib_base.specs.declared.profile.Profile.TheVariants.{Open};
ghost use Rattle.grib_base.specs.Rules.{first_fault_at};
ghost use Rattle.grib2_products.specs.Opaque as opaque;
ghost use Rattle.grib2_products.specs.Opaque.{product_rules_under};

use crate::rules::{check_product, least_length};
use grib_base::{Fault, Profile, Reason, Section};
use grib_bits::u16_at;
use grib2_sections::instant_shift;

/// Whether a section has an opaque product: one by a template that is not stated.
pub fn is_opaque_product(octets: &[u8]) -> bool
    requires { 9 ≤ length octets.now }
    ensures { result ≡ opaque.is_opaque_product octets.now }
{
    least_length(u16_at(octets, 8)).is_none()
}

/// The least length in octets of a section with this template that is not stated.
fn opaque_least(template: u16) -> usize
    ensures { result ≡ opaque.opaque_least template }
{
    match instant_shift(template) {
        Some(shift) => 34 + shift,
        None => 11,
    }
}

/// Tries the rules of Section 4 under a profile. How many there are in a message is for the reader of the
/// message to see. No memory is taken.
///
/// # Errors
///
/// The first rule of the profile that fails, as `check_product` tells it. Where any product is accepted and
/// this one is opaque, the section is too short for the octets that template 4.0 has too.
pub fn check_product_under(profile: Profile, section: &Section<'_>) -> Result<(), Fault>
    ensures { MatchResult result
        (λ _. first_fault_at section.now.start
        (product_rules_under profile section.now.octets.now 1) ≡ None)
        (λ fault. first_fault_at section.now.start
        (product_rules_under profile section.now.octets.now 1) ≡ Some fault) }
{
    match profile {
        Profile::Stated => check_product(section),
        Profile::Open => check_any_product(section),
    }
}

/// Tries the rules of Section 4 where any product is accepted.
fn check_any_product(section: &Section<'_>) -> Result<(), Fault>
    ensures { MatchResult result
        (λ _. first_fault_at section.now.start
        (product_rules_under Open section.now.octets.now 1) ≡ None)
        (λ fault. first_fault_at section.now.start
        (product_rules_under Open section.now.octets.now 1) ≡ Some fault) }
{
    let octets = section.octets;
    let length = octets.len();
    if length < 9 {
        return Err(section.fault_at(1, Reason::SectionLength, length as u64));
    }
    if !is_opaque_product(octets) {
        return check_product(section);
    }
    if length < opaque_least(u16_at(octets, 8)) {
        return Err(section.fault_at(1, Reason::SectionLength, length as u64));
    }
    Ok(())
}
