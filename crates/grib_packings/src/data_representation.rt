//! What Section 5 says of a field, where its packing may be opaque.

ghost use Rattle.std.specs.Prelude.{◌≡◌, ℕ, ◌≤◌, List, true, false, None, Some, MatchOption, MatchResult};
ghost use Rattle.grib_base.specs.declared.profile.Profile.TheVariants.{Open};
ghost use Rattle.grib_base.specs.Faults.{AreTried};
ghost use Rattle.grib_base.specs.Rules.{located};
ghost use Rattle.grib_packing.specs.Entries.{data_fault, is_opaque_packing, packing_fault, packing_fault_under};
ghost use Rattle.grib_packing.specs.Packing.{value_count};
ghost use Rattle.grib_packings.specs.Field.{IsDataOf, Represents};

use crate::Representation;
use grib_base::{Fault, Profile, ReadFault, Section};
use grib_packing::{Opaque, check_stated, is_opaque, read_opaque};
use std::alloc::Global;

/// What Section 5 says of a field whose values can be read, or of one with an opaque packing (WMO-No. 306, Volume I.2,
/// FM 92 GRIB edition 2, code table 5.0).
#[derive(Clone, Copy, Debug, PartialEq, Eq)]
pub enum DataRepresentation {
    /// The packing is stated in docs/PROFILE.md.
    Read(Representation),
    /// The packing is opaque: what Section 5 says in every template.
    Opaque(Opaque),
}

impl DataRepresentation {
    /// Reads a Section 5 under a profile, where the grid has this many points, at most 33,554,432.
    ///
    /// # Errors
    ///
    /// The refusal of the first rule of the profile that fails.
    pub fn read(
        profile: Profile,
        section5: &Section<'_>,
        points: u32,
    ) -> Result<DataRepresentation, Fault>
        requires { points ≤ 33554432 }
        ensures { MatchResult result
            (λ value. (packing_fault_under profile section5.now.octets.now points ≡ None)
            × IsDataOf value section5.now.octets.now)
            (λ fault. located section5.now.start (packing_fault_under profile section5.now.octets.now points)
            ≡ Some fault) }
    {
        match profile {
            Profile::Stated => {
                check_stated(section5)?;
                read_listed(section5, points)
            }
            Profile::Open if is_taken_opaque(section5.octets) => {
                Ok(DataRepresentation::Opaque(read_opaque(section5, points)?))
            }
            Profile::Open => read_listed(section5, points),
        }
    }

    /// The number of values that Section 7 gives.
    pub fn values(&self) -> u32
        ensures { (s5 : List ℕ) → IsDataOf self.now s5 → result ≡ value_count s5 }
    {
        match self {
            DataRepresentation::Read(representation) => representation.values(),
            DataRepresentation::Opaque(opaque) => opaque.values,
        }
    }

    /// What gives the values of the field. There is none exactly where the packing is opaque.
    pub fn representation(&self) -> Option<Representation>
        ensures { (s5 : List ℕ) → IsDataOf self.now s5
            → MatchOption result (is_opaque_packing s5 ≡ true)
            (λ representation. Represents representation s5) }
    {
        match self {
            DataRepresentation::Read(representation) => Some(*representation),
            DataRepresentation::Opaque(_) => None,
        }
    }

    /// Tries the rules of the field's Section 7. Of an opaque packing none is tried. No column is made.
    ///
    /// # Errors
    ///
    /// The refusal of the first rule of the profile that fails, or there is no memory.
    pub fn check_data(&self, alloc: Global, section7: &Section<'_>) -> Result<(), ReadFault>
        requires { (s5 : List ℕ) × IsDataOf self.now s5 }
        ensures { (s5 : List ℕ) → IsDataOf self.now s5
            → AreTried (located section7.now.start (data_fault s5 section7.now.octets.now)) result }
    {
        match self {
            DataRepresentation::Read(representation) => representation.check_data(alloc, section7),
            DataRepresentation::Opaque(_) => Ok(()),
        }
    }
}

/// Whether a Section 5, by its octets, is one whose template the open profile does not ask for. One that is too short for
/// a template is not.
fn is_taken_opaque(octets: &[u8]) -> bool
    ensures opaque { result ≡ true → is_opaque_packing octets.now ≡ true }
    ensures known { result ≡ false → (points : ℕ)
        → packing_fault_under Open octets.now points ≡ packing_fault octets.now points }
{
    octets.len() >= 11 && is_opaque(octets)
}

/// Reads a Section 5 with a packing whose values are read, where the grid has this many points.
fn read_listed(section5: &Section<'_>, points: u32) -> Result<DataRepresentation, Fault>
    requires { points ≤ 33554432 }
    ensures { MatchResult result
        (λ value. (packing_fault section5.now.octets.now points ≡ None) × IsDataOf value section5.now.octets.now)
        (λ fault. located section5.now.start (packing_fault section5.now.octets.now points) ≡ Some fault) }
{
    Ok(DataRepresentation::Read(Representation::read(section5, points)?))
}
