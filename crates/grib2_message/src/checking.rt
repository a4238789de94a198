//! The rules of the profile that decide whether a section is accepted.

ghost use Rattle.std.specs.Prelude.{◌≡◌, ◌+◌, ◌==◌, not, List, [], ◌∷◌, Bool, Option, None, unwrap_or, MatchResult};
ghost use Rattle.grib_base.specs.Rules.{first_fault, first_fault_at, located, rule};
ghost use Rattle.grib2_grids.specs.Opaque.{grid_rules_under};
ghost use Rattle.grib2_products.specs.Opaque.{product_rules_under};
ghost use Rattle.grib_bitmap.specs.Mask.{bitmap_rules, present_count};
ghost use Rattle.grib2_sections.specs.Identification.{identification_rules};
ghost use Rattle.grib_base.specs.declared.fault.Reason.TheVariants.{ValueCount};
ghost use Rattle.grib2_message.specs.Kept.{TellsBitmap, earlier_fault};
ghost use Rattle.grib_base.specs.Faults.{AreTried, IsReadFault};

use crate::in_force::Bitmap;
use grib_base::{Fault, Profile, ReadFault, Reason, Section};
use grib_bitmap::read_mask;
use grib2_sections::read_identification;
use std::alloc::Global;

/// The most fields of a message.
const MOST_FIELDS: usize = 4096;

/// Tries the rule of Section 1.
pub fn check_identification(section: &Section<'_>) -> Result<(), ReadFault>
    ensures { AreTried (first_fault_at section.now.start
        (identification_rules section.now.octets.now)) result }
{
    read_identification(section)?;
    Ok(())
}

/// Tries the rules of Section 3.
pub fn check_grid(profile: Profile, section: &Section<'_>) -> Result<(), ReadFault>
    ensures { AreTried (first_fault_at section.now.start
        (grid_rules_under profile section.now.octets.now)) result }
{
    Ok(grib2_grids::check_grid_under(profile, section)?)
}

/// Tries the rules of a Section 4 that stands after this number of fields.
pub fn check_product(
    profile: Profile,
    fields: usize,
    section: &Section<'_>,
) -> Result<(), ReadFault>
    ensures { AreTried (first_fault_at section.now.start
        (product_rules_under profile section.now.octets.now (fields + 1))) result }
{
    if fields == MOST_FIELDS && section.octets.len() >= 9 {
        return Err(ReadFault::Refused(Fault::at(
            section.start,
            Reason::FieldCount,
            MOST_FIELDS as u64 + 1,
        )));
    }
    Ok(grib2_products::check_product_under(profile, section)?)
}

/// Tries the rules of a Section 6, where the grid in force has this number of points and Section 5 this number
/// of values, after the last Section 6 with bits of its own. Memory is taken only for bits of its own.
pub fn check_bitmap(
    alloc: Global,
    section: &Section<'_>,
    points: u32,
    values: u32,
    earlier: Option<Bitmap>,
) -> Result<(), ReadFault>
    ensures { (mask : Option (List Bool)) → TellsBitmap earlier mask
        → AreTried (first_fault_at section.now.start
        (bitmap_rules section.now.octets.now points values mask)) result }
{
    let octets = section.octets;
    if octets.len() > 5 && octets[5] == 255 {
        return check_count(section, points, values);
    }
    if octets.len() > 5 && octets[5] == 254 {
        let present = check_earlier(section, points, earlier)?;
        return check_count(section, present, values);
    }
    read_mask(alloc, section, points, values, None)?;
    Ok(())
}

/// How many points the earlier bitmap leaves present, where there is one for as many points.
fn check_earlier(
    section: &Section<'_>,
    points: u32,
    earlier: Option<Bitmap>,
) -> Result<u32, ReadFault>
    ensures { (mask : Option (List Bool)) → TellsBitmap earlier mask → MatchResult result
        (λ present. (earlier_fault points mask ≡ None)
        × (present ≡ present_count (unwrap_or mask [])))
        (IsReadFault (located section.now.start (earlier_fault points mask))) }
{
    let place = section.start + 5;
    let Some(bitmap) = earlier else {
        return Err(ReadFault::Refused(Fault::at(place, Reason::NoEarlierBitmap, 254)));
    };
    if bitmap.points != points {
        return Err(ReadFault::Refused(Fault::at(
            place,
            Reason::BitmapSize,
            u64::from(bitmap.points),
        )));
    }
    Ok(bitmap.present)
}

/// Tries the last rule of Section 6: as many points are present as there are values.
fn check_count(section: &Section<'_>, present: u32, values: u32) -> Result<(), ReadFault>
    ensures { AreTried (located section.now.start
        (first_fault (rule (not (present == values)) 6 ValueCount present ∷ []))) result }
{
    if present != values {
        return Err(ReadFault::Refused(Fault::at(
            section.start + 5,
            Reason::ValueCount,
            u64::from(present),
        )));
    }
    Ok(())
}
