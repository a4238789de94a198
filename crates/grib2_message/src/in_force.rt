//! What the sections of a message so far have in force.

ghost use Rattle.std.specs.Prelude.{◌≡◌, ◌≤◌, ◌∷◌, [], IsTrue, List, None, MatchResult, OnErr};
ghost use Rattle.grib_base.specs.Faults.{IsReadFault};
ghost use Rattle.grib_packings.specs.Field.{IsDataOf};
ghost use Rattle.grib2_sections.specs.Frame.{Placed, placed_at, may_follow, section_number};
ghost use Rattle.grib2_message.specs.View.{last_number, octets_in_force, earlier_bitmap};
ghost use Rattle.grib2_message.specs.Acceptance.{section_fault_under};
ghost use Rattle.grib2_message.specs.Kept.{HasInForce, KeepsBitmap};

use crate::checking::{check_bitmap, check_grid, check_identification, check_product};
use grib_base::{Profile, ReadFault, Section};
use grib_bits::{u8_at, u32_at};
use grib_packings::DataRepresentation;
use std::alloc::Global;

/// The indicator of a Section 6 with bits of its own (code table 6.0).
const OWN_BITS: u8 = 0;

/// The last Section 6 with bits of its own.
#[derive(Clone, Copy, Debug)]
pub struct Bitmap {
    /// The octet of the message at which the section begins.
    pub start: u32,
    /// The number of grid points in force there.
    pub points: u32,
    /// How many of them are present.
    pub present: u32,
}

/// What the sections so far have in force, as far as the rules of the next section ask for it (WMO-No. 306,
/// Volume I.2, FM 92 GRIB edition 2: what a group of sections does not repeat stays in force). It has no
/// octets of the message.
#[derive(Clone, Copy, Debug)]
pub struct InForce {
    /// Which sections are accepted.
    pub(crate) profile: Profile,
    /// The number of grid points.
    pub(crate) points: u32,
    /// What the last Section 5 says.
    pub(crate) representation: Option<DataRepresentation>,
    pub(crate) bitmap: Option<Bitmap>,
    /// How many fields have ended.
    pub(crate) fields: usize,
}

impl InForce {
    /// Before the first section of a message that is read under this profile.
    pub fn new(profile: Profile) -> InForce
        ensures force { HasInForce [] result }
        ensures profile { result.profile ≡ profile }
    {
        InForce {
            profile,
            points: 0,
            representation: None,
            bitmap: None,
            fields: 0,
        }
    }

    /// What the last Section 5 says.
    pub fn representation(&self) -> &DataRepresentation
        requires { (before : List Placed) × HasInForce before self.now × (5 ≤ last_number before) }
        ensures { (before : List Placed) → HasInForce before self.now
            → IsDataOf result.now (octets_in_force 5 before) }
    {
        match &self.representation {
            Some(representation) => representation,
            None => unreachable!(),
        }
    }

    /// Moves past the next section, where no rule refuses its contents. Otherwise it is as it was.
    ///
    /// # Errors
    ///
    /// The first rule of its contents that fails, or there is no memory.
    pub fn go_past(&mut self, alloc: Global, section: &Section<'_>) -> Result<(), ReadFault>
        requires follows { (before : List Placed) × HasInForce before self.old
            × IsTrue (may_follow (last_number before) section.now.number) }
        ensures tried { (before : List Placed) → HasInForce before self.old
            → IsTrue (may_follow (last_number before) section.now.number) → MatchResult result
            (λ _. (section_fault_under self.old.profile before (placed_at section.now.start section.now.octets.now) ≡ None)
            × HasInForce (placed_at section.now.start section.now.octets.now ∷ before) self.new)
            (IsReadFault (section_fault_under self.old.profile before (placed_at section.now.start section.now.octets.now))) }
        ensures stays { OnErr result (self.new ≡ self.old) }
        ensures profile { self.new.profile ≡ self.old.profile }
    {
        match section.number {
            1 => check_identification(section),
            3 => {
                check_grid(self.profile, section)?;
                self.points = u32_at(section.octets, 7);
                Ok(())
            }
            4 => check_product(self.profile, self.fields, section),
            5 => {
                self.representation = Some(DataRepresentation::read(
                    self.profile,
                    section,
                    self.points,
                )?);
                Ok(())
            }
            6 => {
                self.bitmap = self.bitmap_after(alloc, section)?;
                Ok(())
            }
            7 => {
                self.representation().check_data(alloc, section)?;
                self.end_field();
                Ok(())
            }
            _ => Ok(()),
        }
    }

    /// Goes past a Section 7, which no rule refused: a field ends.
    pub fn end_field(&mut self)
        requires few { (before : List Placed) × HasInForce before self.old }
        ensures force { (before : List Placed) (s : Placed) → HasInForce before self.old
            → section_number s.octets ≡ 7 → IsTrue (may_follow (last_number before) 7)
            → section_fault_under self.old.profile before s ≡ None → HasInForce (s ∷ before) self.new }
        ensures profile { self.new.profile ≡ self.old.profile }
    {
        self.fields += 1;
    }

    /// Tries the rules of the next section, which is a Section 6, and gives the last one with bits of its own.
    fn bitmap_after(
        &self,
        alloc: Global,
        section: &Section<'_>,
    ) -> Result<Option<Bitmap>, ReadFault>
        requires follows { (before : List Placed) × HasInForce before self.now × (last_number before ≡ 5) }
        requires number { section.now.number ≡ 6 }
        ensures { (before : List Placed) → HasInForce before self.now → MatchResult result
            (λ bitmap. (section_fault_under self.now.profile before (placed_at section.now.start section.now.octets.now) ≡ None)
            × KeepsBitmap bitmap (earlier_bitmap (placed_at section.now.start section.now.octets.now ∷ before)))
            (IsReadFault (section_fault_under self.now.profile before (placed_at section.now.start section.now.octets.now))) }
    {
        let values = self.representation().values();
        check_bitmap(alloc, section, self.points, values, self.bitmap)?;
        if u8_at(section.octets, 6) != OWN_BITS {
            return Ok(self.bitmap);
        }
        Ok(Some(Bitmap {
            start: section.start as u32,
            points: self.points,
            present: values,
        }))
    }
}
