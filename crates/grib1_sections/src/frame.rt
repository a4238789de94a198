//! Sections one after another, and the End Section.

ghost use Rattle.std.specs.Prelude.{◌≡◌, ◌+◌, ◌-◌, ◌≤◌, ◌<◌, ◌^◌, length, Some, None, MatchResult};
ghost use Rattle.grib_base.specs.Rules as acceptance;
ghost use Rattle.grib_base.specs.Rules.{first_fault};
ghost use Rattle.grib2_sections.specs.Head.{total_length_1};
ghost use Rattle.grib1_sections.specs.Frame.{frame_rules, end_rules};
ghost use Rattle.grib1_sections.specs.Known.{Stands};

use grib_base::{Fault, Reason};
use grib_bits::{u32_at, uint_at};

/// The End Section, `7777`, as a number.
const END_MARK: u32 = 0x37373737;

/// A section, and the octet of the message at which it begins.
#[derive(Clone, Copy, Debug)]
pub(crate) struct Placed<'a> {
    pub start: usize,
    pub octets: &'a [u8],
}

impl Placed<'_> {
    /// The octet of the message at which what follows the section begins.
    pub fn end(&self) -> usize
        requires { self.now.start + length self.now.octets.now < 2 ^ 64 }
        ensures { result ≡ self.now.start + length self.now.octets.now }
    {
        self.start + self.octets.len()
    }

    /// The refusal at this octet of the section, counted from 1, for this reason, with this detail.
    pub fn refusal(&self, place: u64, reason: Reason, detail: u64) -> Fault
        requires start { self.now.start < 2 ^ 63 }
        requires counted { 1 ≤ place }
        requires near { place < 256 }
        ensures { result ≡ acceptance.fault_at self.now.start (acceptance.refusal place reason detail) }
    {
        Fault::at(self.start as u64 + (place - 1), reason, detail)
    }
}

/// The section that begins at octet `start` of a message of `total` octets and has at least `least`. A
/// refusal is that of the first rule that fails: the octets end too early, or the section is too short
/// or leaves no four octets after it.
pub(crate) fn section_from<'a>(
    octets: &'a [u8],
    total: u64,
    start: usize,
    least: usize,
) -> Result<Placed<'a>, Fault>
    requires counted { 1 ≤ start }
    requires within { start ≤ length octets.now + 1 }
    requires total { total ≡ total_length_1 octets.now }
    ensures { MatchResult result
        (λ section. (first_fault (frame_rules octets.now start least) ≡ None)
        × (section.start ≡ start) × Stands octets.now start least section.octets.now)
        (λ fault. first_fault (frame_rules octets.now start least) ≡ Some fault) }
{
    let before = start - 1;
    if octets.len() < before + 3 {
        return Err(truncated(octets));
    }
    let length = uint_at(octets, start, 3) as usize;
    if length < least || total < (before + length + 4) as u64 {
        return Err(Fault::at(start as u64, Reason::SectionLength, length as u64));
    }
    if octets.len() < before + length {
        return Err(truncated(octets));
    }
    Ok(Placed {
        start,
        octets: &octets[before..before + length],
    })
}

/// Tries the rules of the End Section, which is to begin at octet `start` of a message of `total`
/// octets.
pub(crate) fn check_end(octets: &[u8], total: u64, start: usize) -> Result<(), Fault>
    requires counted { 1 ≤ start }
    requires within { start ≤ length octets.now + 1 }
    requires total { total ≡ total_length_1 octets.now }
    ensures { MatchResult result
        (λ _. first_fault (end_rules octets.now start) ≡ None)
        (λ fault. first_fault (end_rules octets.now start) ≡ Some fault) }
{
    if octets.len() < start + 3 {
        return Err(truncated(octets));
    }
    let mark = u32_at(octets, start);
    if mark != END_MARK {
        return Err(Fault::at(start as u64, Reason::EndMark, u64::from(mark)));
    }
    let last_octet = start as u64 + 3;
    if last_octet < total {
        return Err(Fault::at(last_octet + 1, Reason::LengthDisagrees, total - last_octet));
    }
    Ok(())
}

/// The refusal of a message of which only these octets are there.
fn truncated(octets: &[u8]) -> Fault
    ensures { result ≡ acceptance.refusal (length octets.now + 1) Reason.Truncated (length octets.now) }
{
    let present = octets.len() as u64;
    Fault::at(present + 1, Reason::Truncated, present)
}
