//! Section 5, the data representation section, by the packings that a profile has.

ghost use Rattle.std.specs.Prelude.{◌≡◌, ◌≤◌, ℕ, length, Some, None, MatchResult};
ghost use Rattle.grib_base.specs.declared.profile.Profile.TheVariants.{Stated};
ghost use Rattle.grib_base.specs.Rules.{first_fault_at, located};
ghost use Rattle.grib_packing.specs.Entries.{is_opaque_packing, is_packing, is_stated_packing, opaque_packing_rules, packing_fault, packing_fault_under};
ghost use Rattle.grib_packing.specs.Representation.{SpelledOpaque};

use crate::representation::{limits_of, reason_of};
use byteorder::{BigEndian, ByteOrder};
use grib_base::{Fault, Reason, Section};

/// What Section 5 says in every template (WMO-No. 306, Volume I.2, FM 92 GRIB edition 2, Section 5). Of a packing
/// whose template is not stated in docs/PROFILE.md it is all that is known: the packing is opaque.
#[derive(Clone, Copy, Debug, PartialEq, Eq)]
pub struct Opaque {
    /// The number of values that Section 7 gives: octets 6-9.
    pub values: u32,
    /// The data representation template (code table 5.0): octets 10-11.
    pub template: u16,
}

/// Reads of Section 5 what stands in every template, where the grid has this many points. A refusal is that of
/// the first rule that fails: the section is too short, or there are more values than points.
pub fn read_opaque(section: &Section<'_>, points: u32) -> Result<Opaque, Fault>
    ensures { MatchResult result
        (λ value. (first_fault_at section.now.start (opaque_packing_rules section.now.octets.now points) ≡ None)
        × SpelledOpaque value section.now.octets.now)
        (λ fault. first_fault_at section.now.start (opaque_packing_rules section.now.octets.now points)
        ≡ Some fault) }
{
    let octets = section.octets;
    let length = octets.len() as u64;
    if length < 11 {
        return Err(section.fault_at(1, Reason::SectionLength, length));
    }
    let values = BigEndian::read_u32(&octets[5..]);
    if values > points {
        return Err(section.fault_at(6, Reason::ValueCount, u64::from(values)));
    }
    let template = BigEndian::read_u16(&octets[9..]);
    Ok(Opaque { values, template })
}

/// Whether the values of fields with this template (code table 5.0) are read: 5.0, 5.2, 5.3 and 5.42.
pub fn is_read(template: u16) -> bool
    ensures { result ≡ is_packing template }
{
    limits_of(template).is_ok()
}

/// Whether a Section 5, by its octets, has an opaque packing: its template (code table 5.0) is not one whose values are
/// read.
pub fn is_opaque(octets: &[u8]) -> bool
    requires { 11 ≤ length octets.now }
    ensures { result ≡ is_opaque_packing octets.now }
{
    !is_read(BigEndian::read_u16(&octets[9..]))
}

/// Whether the stated profile has the packing of a Section 5, by its octets.
pub fn is_stated(octets: &[u8]) -> bool
    requires { 11 ≤ length octets.now }
    ensures { result ≡ is_stated_packing octets.now }
{
    match limits_of(BigEndian::read_u16(&octets[9..])) {
        Ok(limits) => limits.is_stated,
        Err(_) => false,
    }
}

/// Tries of a Section 5 the rule by which the stated profile refuses a packing that it does not have. All other rules it
/// shares with every profile that has the packing.
///
/// # Errors
///
/// The stated profile does not have the packing.
pub fn check_stated(section: &Section<'_>) -> Result<(), Fault>
    ensures { MatchResult result
        (λ _. (points : ℕ) → packing_fault_under Stated section.now.octets.now points ≡ packing_fault section.now.octets.now points)
        (λ fault. (points : ℕ) → located section.now.start (packing_fault_under Stated section.now.octets.now points) ≡ Some fault) }
{
    let octets = section.octets;
    if octets.len() < 11 || is_stated(octets) {
        return Ok(());
    }
    let template = BigEndian::read_u16(&octets[9..]);
    Err(section.fault_at(10, reason_of(template), u64::from(template)))
}
