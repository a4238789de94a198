//! A section of a message.

ghost use Rattle.std.specs.Prelude.{◌≡◌, ◌^◌, ◌≤◌, length};
ghost use Rattle.grib_bits.specs.Octets.{StatesItself};
ghost use Rattle.grib_base.specs.Rules as acceptance;
ghost use Rattle.grib_base.specs.declared.limits.TheConstants.{MOST_OCTETS};

use crate::fault::{Fault, Reason};
use grib_bits::u32_at;

/// A section: its octets stand in the message from octet `start` on, counted from 1 at the `G` of
/// `GRIB`. Its first four octets are its length in octets, and its fifth is its number (WMO-No. 306,
/// Volume I.2, FM 92 GRIB edition 2, Sections 1 to 7).
#[derive(Clone, Copy, Debug)]
pub struct Section<'a> {
    /// The number of the section, 1 to 7.
    pub number: u8,
    /// The octet of the message at which the section begins, 1 to 268,435,456.
    pub start: u64,
    /// The whole section, its length and its number among them.
    pub octets: &'a [u8],
    pub ghost itself: { StatesItself number octets.now },
    pub ghost low: { 1 ≤ start },
    pub ghost high: { start ≤ MOST_OCTETS },
}

impl Section<'_> {
    /// How many octets the section has, as its octets 1-4 state.
    pub fn length(&self) -> u32
        ensures { result ≡ length self.now.octets.now }
    {
        u32_at(self.octets, 1)
    }

    /// The refusal at this octet of the section, counted from 1, for this reason, with this detail.
    pub fn fault_at(&self, place: u64, reason: Reason, detail: u64) -> Fault
        requires counted { 1 ≤ place }
        requires near { place ≤ 2 ^ 32 }
        ensures { result ≡ acceptance.fault_at self.now.start (acceptance.refusal place reason detail) }
    {
        Fault::at(self.start + (place - 1), reason, detail)
    }
}
