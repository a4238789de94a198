//! Where the sections in force stand in a message.

ghost use Rattle.std.specs.Prelude.{◌≡◌, ◌<◌, ◌∷◌, List, ℕ, get_or, [], None, MatchResult};
ghost use Rattle.grib_base.specs.Faults.{IsReadFault};
ghost use Rattle.grib2_sections.specs.Frame.{Placed, placed_at, section_at};
ghost use Rattle.grib2_message.specs.View.{octets_in_force};
ghost use Rattle.grib2_message.specs.Acceptance.{section_fault_under};
ghost use Rattle.grib2_message.specs.Kept.{Comes, HasPlaces, StandsAt};

use crate::InForce;
use grib_base::{Profile, ReadFault, Section};
use grib_bits::u32_at;
use std::alloc::Global;

/// What the sections so far of a message have in force, and where they begin.
#[derive(Clone, Copy, Debug)]
pub(crate) struct Places {
    /// By the number of the section, the octet at which the last one with this number begins, or 0.
    pub starts: [u32; 8],
    pub force: InForce,
}

impl Places {
    /// Those before the first section of a message that is read under this profile.
    pub fn new(profile: Profile) -> Places
        ensures places { (message : List ℕ) → HasPlaces message [] result }
        ensures profile { result.force.profile ≡ profile }
    {
        Places {
            starts: [0; 8],
            force: InForce::new(profile),
        }
    }

    /// Goes past the next section, where no rule refuses its contents.
    ///
    /// # Errors
    ///
    /// The first rule of its contents that fails, or there is no memory.
    pub fn go_past(&mut self, alloc: Global, section: &Section<'_>) -> Result<(), ReadFault>
        requires comes { (message : List ℕ) × (before : List Placed) × HasPlaces message before self.old
            × Comes message before section.now.number section.now.start section.now.octets.now }
        ensures tried { (message : List ℕ) (before : List Placed) → HasPlaces message before self.old
            → Comes message before section.now.number section.now.start section.now.octets.now
            → MatchResult result
            (λ _. (section_fault_under self.old.force.profile before (placed_at section.now.start section.now.octets.now) ≡ None)
            × HasPlaces message (placed_at section.now.start section.now.octets.now ∷ before) self.new)
            (IsReadFault (section_fault_under self.old.force.profile before (placed_at section.now.start section.now.octets.now))) }
        ensures profile { self.new.force.profile ≡ self.old.force.profile }
    {
        self.force.go_past(alloc, section)?;
        self.starts[section.number as usize] = section.start as u32;
        Ok(())
    }

    /// The section with this number that is in force.
    pub fn section<'a>(&self, octets: &'a [u8], number: u8) -> Section<'a>
        requires number { number < 8 }
        requires stands { StandsAt octets.now (get_or self.now.starts number 0) number }
        ensures octets { (before : List Placed) → HasPlaces octets.now before self.now
            → result.octets.now ≡ octets_in_force number before }
        ensures start { result.start ≡ get_or self.now.starts number 0 }
        ensures number { result.number ≡ number }
    {
        section_from(octets, self.starts[number as usize], number)
    }
}

/// The section with this number that stands at this octet of a message.
pub(crate) fn section_from(octets: &[u8], start: u32, number: u8) -> Section<'_>
    requires { StandsAt octets.now start number }
    ensures octets { result.octets.now ≡ section_at octets.now start }
    ensures start { result.start ≡ start }
    ensures number { result.number ≡ number }
{
    let length = u32_at(octets, start as usize);
    let before = start as usize - 1;
    Section {
        number,
        start: u64::from(start),
        octets: &octets[before..before + length as usize],
    }
}
