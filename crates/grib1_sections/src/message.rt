//! A message that was read.

ghost use Rattle.std.specs.Prelude.{◌≡◌, ◌≤◌, length, None, Some, MatchOption, option_copied};
ghost use Rattle.grib1_sections.specs.Acceptance.{points_of, values_of};
ghost use Rattle.grib1_sections.specs.Message.{IsMessage1, SectionsPass, section_of};
ghost use Rattle.grib1_sections.specs.Known.{HasSections};

use grib_base::MOST_POINTS;
use std::marker::Model;

/// A message of edition 1 that is accepted (WMO-No. 306, Volume I.2, FM 92 GRIB edition 1, in the profile
/// of docs/PROFILE.md). A clause sees its octets, from `GRIB` to `7777`.
#[derive(Debug, Drop)]
pub struct Message1<'a> {
    octets: &'a [u8],
    identification: &'a [u8],
    grid: &'a [u8],
    bitmap: Option<&'a [u8]>,
    data: &'a [u8],
    points: u32,
    values: u32,
}

impl<'a> Model for Message1<'a> {
    ghost use Rattle.std.specs.Prelude.{List, ℕ, option_copied};
    ghost use Rattle.grib1_sections.specs.Known.{HasSections};

    ghost Value = { List ℕ };

    ghost view = { λ message. message.octets.now };

    ghost invariant = { λ message. HasSections message.octets.now message.identification.now
        message.grid.now (option_copied message.bitmap) message.«data».now message.points
        message.values };
}

impl<'a> Message1<'a> {
    /// The message of these octets, with these sections and numbers of grid points and of those that are
    /// present.
    pub(crate) fn of(
        octets: &'a [u8],
        identification: &'a [u8],
        grid: &'a [u8],
        bitmap: Option<&'a [u8]>,
        data: &'a [u8],
        points: u32,
        values: u32,
    ) -> Message1<'a>
        requires { HasSections octets.now identification.now grid.now (option_copied bitmap)
            «data».now points values }
        ensures { result ≡ octets.now }
    {
        Message1 {
            octets,
            identification,
            grid,
            bitmap,
            data,
            points,
            values,
        }
    }

    /// The number of octets.
    pub fn length(&self) -> u64
        ensures { result ≡ length self.now }
    {
        self.octets.len() as u64
    }

    /// The octets from `GRIB` to `7777`.
    pub fn octets(&self) -> &'a [u8]
        ensures octets { result.now ≡ self.now }
        ensures message { IsMessage1 self.now }
        ensures passes { SectionsPass self.now }
    {
        self.octets
    }

    /// The number of grid points.
    pub fn points(&self) -> u32
        ensures points { result ≡ points_of self.now }
        ensures some { 1 ≤ result }
        ensures few { result ≤ MOST_POINTS }
    {
        self.points
    }

    /// The number of grid points that are present.
    pub fn values(&self) -> u32
        ensures values { result ≡ values_of self.now }
        ensures few { result ≤ points_of self.now }
    {
        self.values
    }

    /// The section with this number, 1 to 4. Only Section 3 may be absent. No rule of the profile refuses
    /// the sections of a message, so each has the octets that these rules ask for.
    pub fn section(&self, number: u8) -> Option<&'a [u8]>
        requires low { 1 ≤ number }
        requires high { number ≤ 4 }
        ensures section { MatchOption result (section_of self.now number ≡ None)
            (λ octets. section_of self.now number ≡ Some octets.now) }
        ensures passes { SectionsPass self.now }
    {
        match number {
            1 => Some(self.identification),
            2 => Some(self.grid),
            3 => self.bitmap,
            _ => Some(self.data),
        }
    }
}
