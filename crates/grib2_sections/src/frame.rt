//! The sections of a message, one after another.

ghost use Rattle.std.specs.Prelude.{◌≡◌, ◌+◌, ◌≤◌, ◌==◌, length, IsTrue, Some, None, MatchResult, MatchOption};
ghost use Rattle.grib_bits.specs.Octets.{StatesItself};
ghost use Rattle.grib2_sections.specs.Frame.{End, Fails, Next, step_from, position_after, mark_fault, frame_fault, end_fault, opening_fault, ends_at, section_at, may_follow as is_successor};

use crate::refusing::truncated;
use grib_base::{Fault, MOST_OCTETS, Reason, Section};
use grib_bits::{u8_at, u32_at};
use std::marker::Model;

/// The walk over the sections of a message of edition 2 after Section 0 (WMO-No. 306, Volume I.2,
/// FM 92 GRIB edition 2). A clause sees the total length of the message, the octet at which the next
/// section or the End Section begins, and the number of the section before it.
#[derive(Debug, Drop)]
pub struct Frame {
    total: u64,
    place: u64,
    last: u8,
}

// Four octets are always left.
impl Model for Frame {
    ghost use Rattle.std.specs.Prelude.{◌+◌, ◌≤◌};
    ghost use Rattle.grib_base.specs.declared.limits.TheConstants.{MOST_OCTETS};
    ghost use Rattle.grib2_sections.specs.Frame.{Position};

    ghost Value = { Position };

    ghost view = { λ frame. record { total = frame.total; place = frame.place; last = frame.last } };

    ghost invariant = { λ frame. (frame.total ≤ MOST_OCTETS) × (17 ≤ frame.place)
        × (frame.place + 3 ≤ frame.total) × (frame.last ≤ 7) };
}

/// The End Section, `7777`, as a number.
const END_MARK: u32 = 0x37373737;

impl Frame {
    /// The walk that has passed Section 0 of a message of `total` octets.
    pub fn new(total: u64) -> Frame
        requires shortest { 20 ≤ total }
        requires longest { total ≤ MOST_OCTETS }
        ensures { result ≡ record { total = total; place = 17; last = 0 } }
    {
        Frame {
            total,
            place: 17,
            last: 0,
        }
    }

    /// The octet at which the next section or the End Section begins.
    pub fn place(&self) -> u64
        ensures { result ≡ self.now.place }
    {
        self.place
    }

    /// The total length of the message.
    pub fn total(&self) -> u64
        ensures { result ≡ self.now.total }
    {
        self.total
    }

    /// The next section of the message that begins with these octets, which may go on past its end,
    /// or nothing at the End Section. A refusal is that of the first rule of the profile that fails:
    /// the octets end too early, a section may not stand there, or a length disagrees with the
    /// total. It and the End Section leave the frame as it was.
    pub fn next<'a>(&mut self, octets: &'a [u8]) -> Result<Option<Section<'a>>, Fault>
        ensures { MatchResult result
            (λ next. MatchOption next
            ((step_from octets.now self.old ≡ End) × (self.new ≡ self.old))
            (λ section. (step_from octets.now self.old ≡ Next section.octets.now)
            × (section.start ≡ self.old.place)
            × (self.new ≡ position_after self.old section.octets.now)))
            (λ fault. (step_from octets.now self.old ≡ Fails fault) × (self.new ≡ self.old)) }
    {
        if self.is_at_end(octets)? {
            return Ok(None);
        }
        let section = self.section(octets)?;
        self.go_past(section.octets.len() as u64, section.number);
        Ok(Some(section))
    }

    /// Goes past a section of this length, with this number, that stands here.
    pub fn go_past(&mut self, length: u64, number: u8)
        requires room { self.old.place + length + 3 ≤ self.old.total }
        requires number { number ≤ 7 }
        ensures { self.new ≡ record { total = self.old.total; place = self.old.place + length; last = number } }
    {
        self.place += length;
        self.last = number;
    }

    /// Whether these four octets, which stand here, are the End Section. A refusal is that of the
    /// first rule that fails: an End Section may not stand here, or another has to.
    pub fn ends(&self, mark: u32) -> Result<bool, Fault>
        ensures { MatchResult result
            (λ ends. (end_fault self.now mark ≡ None) × (ends ≡ (mark == 926365495)))
            (λ fault. end_fault self.now mark ≡ Some fault) }
    {
        let last_octet = self.place + 3;
        if mark == END_MARK && self.last != 7 {
            return Err(Fault::at(self.place, Reason::SectionOrder, 8));
        }
        if mark == END_MARK && last_octet < self.total {
            let left = self.total - last_octet;
            return Err(Fault::at(self.place + 4, Reason::LengthDisagrees, left));
        }
        if mark != END_MARK && last_octet == self.total {
            return Err(Fault::at(self.place, Reason::EndMark, u64::from(mark)));
        }
        Ok(mark == END_MARK)
    }

    /// Tries whether a section of this length, with this number, may stand here. A refusal is that of
    /// the first rule that fails.
    pub fn opens(&self, length: u32, number: u8) -> Result<(), Fault>
        ensures { MatchResult result
            (λ _. (opening_fault self.now length number ≡ None) × (5 ≤ length) × (number ≤ 7)
            × IsTrue (is_successor self.now.last number) × (self.now.place + length + 3 ≤ self.now.total))
            (λ fault. opening_fault self.now length number ≡ Some fault) }
    {
        let octets = u64::from(length);
        if octets < 5 || self.total < self.place - 1 + octets + 4 {
            return Err(Fault::at(self.place, Reason::SectionLength, octets));
        }
        if !may_follow(self.last, number) {
            return Err(Fault::at(self.place + 4, Reason::SectionOrder, u64::from(number)));
        }
        Ok(())
    }

    /// Whether the End Section stands here, and may.
    fn is_at_end(&self, octets: &[u8]) -> Result<bool, Fault>
        ensures { MatchResult result
            (λ ends. (mark_fault octets.now self.now ≡ None)
            × (ends ≡ ends_at octets.now self.now.place))
            (λ fault. mark_fault octets.now self.now ≡ Some fault) }
    {
        let present = octets.len() as u64;
        if present < self.place + 3 {
            return Err(truncated(present));
        }
        self.ends(u32_at(octets, self.place as usize))
    }

    /// The section that stands here, and may.
    fn section<'a>(&self, octets: &'a [u8]) -> Result<Section<'a>, Fault>
        ensures { MatchResult result
            (λ section. (frame_fault octets.now self.now ≡ None)
            × (section.octets.now ≡ section_at octets.now self.now.place)
            × StatesItself section.number section.octets.now
            × (section.start ≡ self.now.place) × (section.number ≤ 7)
            × (self.now.place + length section.octets.now + 3 ≤ self.now.total))
            (λ fault. frame_fault octets.now self.now ≡ Some fault) }
    {
        let present = octets.len() as u64;
        if present < self.place + 4 {
            return Err(truncated(present));
        }
        let first = self.place as usize;
        let length = u32_at(octets, first);
        let number = u8_at(octets, first + 4);
        self.opens(length, number)?;
        let end = first - 1 + length as usize;
        if octets.len() < end {
            return Err(truncated(present));
        }
        Ok(Section {
            number,
            start: self.place,
            octets: &octets[first - 1..end],
        })
    }
}

/// Whether a section with this number may stand behind the section with the number `last`.
fn may_follow(last: u8, number: u8) -> bool
    requires { last ≤ 7 }
    ensures answer { result ≡ is_successor last number }
    ensures known { IsTrue result → number ≤ 7 }
{
    match last {
        0 => number == 1,
        1 => number == 2 || number == 3,
        2 => number == 3,
        3 => number == 4,
        4 => number == 5,
        5 => number == 6,
        6 => number == 7,
        _ => number == 2 || number == 3 || number == 4,
    }
}
