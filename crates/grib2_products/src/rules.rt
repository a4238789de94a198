//! The rules of the profile that decide whether Section 4 is accepted.

ghost use Rattle.std.specs.Prelude.{◌≡◌, ◌+◌, ◌*◌, ◌<◌, ◌≤◌, true, false, length, Some, None, MatchResult, MatchOption};
ghost use Rattle.grib_base.specs.Rules as acceptance;
ghost use Rattle.grib_base.specs.Rules.{first_fault_at, fault_at};
ghost use Rattle.grib2_sections.specs.Template.{is_template, least_length as least_of};
ghost use Rattle.grib2_products.specs.Product as product;
ghost use Rattle.grib2_products.specs.Product.{product_rules, product_templates, product_template};
ghost use Rattle.grib2_products.specs.Whole.{IsWhole};

use grib_base::{Fault, Reason, Section};
use grib_bits::{u8_at, u16_at};

/// The least length in octets of a section with this template, if the profile has it.
pub(crate) fn least_length(template: u16) -> Option<usize>
    ensures { MatchOption result (is_template product_templates template ≡ false)
        (λ least. (is_template product_templates template ≡ true)
        × (least ≡ least_of product_templates template)) }
{
    match template {
        0 => Some(34),
        1 => Some(37),
        8 => Some(46),
        11 => Some(49),
        _ => None,
    }
}

/// The number of time ranges, 0 for a template that has none.
pub(crate) fn time_ranges(octets: &[u8]) -> u8
    requires known { is_template product_templates (product_template octets.now) ≡ true }
    requires long { least_of product_templates (product_template octets.now) ≤ length octets.now }
    requires least { 34 ≤ length octets.now }
    ensures { result ≡ product.time_ranges octets.now }
{
    match u16_at(octets, 8) {
        8 => u8_at(octets, 42),
        11 => u8_at(octets, 45),
        _ => 0,
    }
}

/// Tries the rules of Section 4. How many there are in a message is for the reader of the message to see.
/// No memory is taken.
///
/// # Errors
///
/// The first rule of the profile that fails: the section is too short for its template, time ranges
/// and coordinate values, or has a template that the profile does not have.
pub fn check_product(section: &Section<'_>) -> Result<(), Fault>
    ensures { MatchResult result
        (λ _. first_fault_at section.now.start (product_rules section.now.octets.now 1) ≡ None)
        (λ fault. first_fault_at section.now.start (product_rules section.now.octets.now 1)
        ≡ Some fault) }
{
    let octets = section.octets;
    let length = octets.len();
    if length < 9 {
        return Err(section.fault_at(1, Reason::SectionLength, length as u64));
    }
    let template = u16_at(octets, 8);
    let Some(least) = least_length(template) else {
        return Err(section.fault_at(8, Reason::ProductTemplate, u64::from(template)));
    };
    if length < least {
        return Err(section.fault_at(1, Reason::SectionLength, length as u64));
    }
    let ranges = usize::from(time_ranges(octets));
    let coordinates = usize::from(u16_at(octets, 6));
    if length < least + 12 * ranges + 4 * coordinates {
        return Err(section.fault_at(1, Reason::SectionLength, length as u64));
    }
    Ok(())
}

/// The octet after the template and its time ranges.
pub(crate) fn coordinate_start(octets: &[u8]) -> usize
    requires { IsWhole octets.now }
    ensures { result ≡ product.template_length octets.now + 1 }
{
    let Some(least) = least_length(u16_at(octets, 8)) else {
        unreachable!();
    };
    least + 12 * usize::from(time_ranges(octets)) + 1
}
