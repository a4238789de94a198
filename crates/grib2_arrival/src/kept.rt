//! What is kept of the sections that are whole.

ghost use Rattle.std.specs.Prelude.{◌≡◌, ◌≢◌, ℕ, ◌+◌, ◌≤◌, List, [], ◌∷◌, None, Err, length as length_of, MatchResult, IfOk, OnErr};
ghost use Rattle.grib_bits.specs.Octets.{StatesItself};
ghost use Rattle.grib_base.specs.declared.profile.Profile.{Profile};
ghost use Rattle.grib2_sections.specs.Frame.{Placed, Next, placed_at};
ghost use Rattle.grib2_message.specs.Acceptance.{section_fault_under};
ghost use Rattle.grib2_message.specs.Kept.{HasInForce};
ghost use Rattle.grib2_message.specs.Summary.{summary_in_force};
ghost use Rattle.grib2_arrival.specs.Standing.{Stands};
ghost use Rattle.grib2_arrival.specs.Heard.{step_of, StopsUnder};

use grib_base::{Profile, ReadFault, Section};
use grib2_message::{FieldSummary, InForce};
use grib2_sections::Frame;
use std::alloc::Global;

/// What is kept of Section 0 and of the sections that are whole.
#[derive(Debug, Drop)]
pub(crate) struct Kept {
    /// Where the next section or the End Section begins.
    pub frame: Frame,
    /// What the sections have in force.
    pub force: InForce,
    /// What describes a field by the sections in force.
    pub line: FieldSummary,
    /// What describes the fields that have ended.
    pub summaries: Vec<FieldSummary>,
}

impl Kept {
    /// Behind Section 0, which states this total length and this discipline, under this profile.
    pub fn new(alloc: Global, profile: Profile, total: u64, discipline: u8) -> Kept
        requires shortest { 20 ≤ total }
        requires longest { total ≤ 268435456 }
        ensures frame { result.frame ≡ record { total = total; place = 17; last = 0 } }
        ensures force { HasInForce [] result.force }
        ensures profile { result.force.profile ≡ profile }
        ensures line { result.line ≡ summary_in_force discipline [] }
        ensures summaries { result.summaries.items ≡ [] }
    {
        Kept {
            frame: Frame::new(total),
            force: InForce::new(profile),
            line: FieldSummary::new(discipline),
            summaries: Vec::new(alloc),
        }
    }
}

/// What is kept after the next section, which is no Section 7.
///
/// # Errors
///
/// The first rule of its contents that fails, or there is no memory.
pub(crate) fn after_section(
    alloc: Global,
    kept: Kept,
    section: &Section<'_>,
) -> Result<Kept, ReadFault>
    requires stands { (profile : Profile) × (octets : List ℕ) × (before : List Placed) × Stands profile octets before kept
        × (step_of octets kept ≡ Next section.now.octets.now) × (section.now.start ≡ kept.frame.place) }
    requires not_7 { section.now.number ≢ 7 }
    ensures { (profile : Profile) (octets : List ℕ) (before : List Placed) → Stands profile octets before kept
        → step_of octets kept ≡ Next section.now.octets.now → MatchResult result
        (λ after. Stands profile octets (placed_at kept.frame.place section.now.octets.now ∷ before) after
        × (after.frame.place ≡ kept.frame.place + length_of section.now.octets.now))
        (StopsUnder profile octets) }
{
    let mut kept = kept;
    kept.force.go_past(alloc, section)?;
    kept.line = kept.line.with_section(section);
    kept.frame
        .go_past(section.octets.len() as u64, section.number);
    Ok(kept)
}

/// What is kept after a Section 7 of this length, which no rule refused: its field ends.
pub(crate) fn after_values(kept: Kept, length: u32) -> Result<Kept, ReadFault>
    requires stands { (profile : Profile) × (octets : List ℕ) × (before : List Placed) × Stands profile octets before kept
        × (kept.frame.place + length + 3 ≤ kept.frame.total) }
    ensures stands { IfOk result (λ after. (profile : Profile) (octets : List ℕ) (before : List Placed) (s7 : List ℕ) → Stands profile octets before kept
        → step_of octets kept ≡ Next s7 → length_of s7 ≡ length → StatesItself 7 s7
        → section_fault_under profile before (placed_at kept.frame.place s7) ≡ None
        → Stands profile octets (placed_at kept.frame.place s7 ∷ before) after × (after.frame.place ≡ kept.frame.place + length)) }
    ensures memory { OnErr result (result ≡ Err ReadFault.Memory) }
{
    let mut kept = kept;
    let Ok(()) = kept.summaries.push(kept.line) else {
        return Err(ReadFault::Memory);
    };
    kept.force.end_field();
    kept.frame.go_past(u64::from(length), 7);
    Ok(kept)
}
