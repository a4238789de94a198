//! Section 6, the bitmap section.

ghost use Rattle.std.specs.Prelude.{◌≡◌, ◌≢◌, ◌≤◌, None, MatchResult, option_copied};
ghost use Rattle.grib_base.specs.Rules as acceptance;
ghost use Rattle.grib_base.specs.Rules.{first_fault_at};
ghost use Rattle.grib_bitmap.specs.Mask.{mask_of, present_count, bitmap_rules};
ghost use Rattle.grib_base.specs.Faults.{IsReadFault};

use crate::mask::{Mask, ones};
use grib_base::{Fault, ReadFault, Reason, Section};
use std::alloc::Global;

/// Reads Section 6 (WMO-No. 306, Volume I.2, FM 92 GRIB edition 2, code table 6.0) of a field whose
/// grid has this many points and whose Section 5 has this many values. `earlier` is the mask of the
/// last earlier Section 6 of the message with bits of its own. A refusal is that of the first rule of the
/// profile that fails: the section is too short for its indicator or for its bits, no such indicator is
/// in use, there is no earlier mask or it has not this many points, or not as many points are present
/// as there are values.
pub fn read_mask(
    alloc: Global,
    section: &Section<'_>,
    points: u32,
    values: u32,
    earlier: Option<&Mask>,
) -> Result<Mask, ReadFault>
    ensures { let rules = bitmap_rules section.now.octets.now points values (option_copied earlier.entry) in
        MatchResult result
        (λ mask. (first_fault_at section.now.start rules ≡ None)
        × (mask ≡ mask_of section.now.octets.now points (option_copied earlier.entry)))
        (IsReadFault (first_fault_at section.now.start rules)) }
{
    let octets = section.octets;
    let length = octets.len() as u64;
    if length < 6 {
        return Err(refused(section.start, Reason::SectionLength, length));
    }
    let place = section.start + 5;
    match octets[5] {
        0 if octets.len() - 6 < points.div_ceil(8) as usize => {
            Err(refused(section.start, Reason::BitmapSize, length))
        }
        0 => counted(Mask::of_octets(alloc, &octets[6..], points)?, values, place),
        254 => match earlier {
            None => Err(refused(place, Reason::NoEarlierBitmap, 254)),
            Some(mask) if mask.len() != points => {
                Err(refused(place, Reason::BitmapSize, u64::from(mask.len())))
            }
            Some(mask) => counted(mask.copy(alloc)?, values, place),
        },
        255 => counted(Mask::all(alloc, points)?, values, place),
        indicator => Err(refused(place, Reason::BitmapIndicator, u64::from(indicator))),
    }
}

/// The refusal at this octet of the message, as why there is no mask.
fn refused(octet: u64, reason: Reason, detail: u64) -> ReadFault
    ensures { result ≡ ReadFault.Refused (acceptance.refusal octet reason detail) }
{
    ReadFault::Refused(Fault::at(octet, reason, detail))
}

/// The mask, if as many points are present as there are values; else a refusal at this octet.
fn counted(mask: Mask, values: u32, octet: u64) -> Result<Mask, ReadFault>
    ensures { MatchResult result
        (λ same. (same ≡ mask) × (present_count mask ≡ values))
        (λ fault. (present_count mask ≢ values)
        × (fault ≡ ReadFault.Refused (acceptance.refusal octet Reason.ValueCount (present_count mask)))) }
{
    let present = ones(&mask);
    if present != values {
        return Err(refused(octet, Reason::ValueCount, u64::from(present)));
    }
    Ok(mask)
}
