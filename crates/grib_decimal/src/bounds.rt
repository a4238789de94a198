//! The least and the greatest scaled number of a field.

ghost use Rattle.std.specs.Prelude.{◌≡◌, ℕ, ◌+◌, ◌≤◌, List, length, get_or, IfSome, IfNone};
ghost use Rattle.grib_packing.specs.declared.column.Point.{Point as point};
ghost use Rattle.grib_packing.specs.declared.column.Point.TheVariants.{Scaled, Missing};
ghost use Rattle.grib_decimal.specs.Bounds.{HasNoNumber, AreExtremes, AreExtremesSoFar, BoundAllValues, IsLeastSoFar, IsGreatestSoFar};

use crate::extreme::Extremes;
use crate::summing::summary;
use grib_base::MOST_POINTS;
use grib_packing::Column;

/// The least and the greatest scaled number of the field, and so of its values, which rise with the scaled numbers.
/// There are none where each point is missing. It takes no memory.
pub fn extremes(column: &Column) -> Option<Extremes>
    requires { length column.now.points ≤ MOST_POINTS }
    ensures none { IfNone result (HasNoNumber column.now.points (length column.now.points)) }
    ensures some { IfSome result (λ m. AreExtremes column.now.points (length column.now.points) m) }
    ensures values { IfSome result (λ m. BoundAllValues column.now.points m) }
{
    summary(column).extremes
}

/// The least number so far.
#[derive(Clone, Copy, Debug)]
pub(crate) struct Least {
    number: i64,
    /// The first place where it stands, from 1: 0 while there is none below `i64::MAX`.
    place: u32,
}

impl Least {
    /// Before the first number.
    pub(crate) fn none() -> Least
        ensures { (points : List point) → IsLeastSoFar points 0 result }
    {
        Least {
            number: i64::MAX,
            place: 0,
        }
    }

    /// With one more number, at this place.
    #[inline(always)]
    pub(crate) fn with(self, number: i64, place: u32) -> Least
        ensures { (points : List point) (n : ℕ) → n + 1 ≡ place → get_or points n Missing ≡ Scaled number
            → IsLeastSoFar points n self → IsLeastSoFar points (n + 1) result }
    {
        if number < self.number {
            Least { number, place }
        } else {
            self
        }
    }
}

/// The greatest number so far.
#[derive(Clone, Copy, Debug)]
pub(crate) struct Greatest {
    number: i64,
    /// The first place where it stands, from 1: 0 while there is none above `i64::MIN`.
    place: u32,
}

impl Greatest {
    /// Before the first number.
    pub(crate) fn none() -> Greatest
        ensures { (points : List point) → IsGreatestSoFar points 0 result }
    {
        Greatest {
            number: i64::MIN,
            place: 0,
        }
    }

    /// With one more number, at this place.
    #[inline(always)]
    pub(crate) fn with(self, number: i64, place: u32) -> Greatest
        ensures { (points : List point) (n : ℕ) → n + 1 ≡ place → get_or points n Missing ≡ Scaled number
            → IsGreatestSoFar points n self → IsGreatestSoFar points (n + 1) result }
    {
        if number > self.number {
            Greatest { number, place }
        } else {
            self
        }
    }
}

/// The extremes, once all numbers came. Where one of them is as it began and the other is not, all numbers are
/// that one, so that both stand first where the first number does.
pub(crate) fn extremes_between(least: Least, greatest: Greatest) -> Option<Extremes>
    ensures { (points : List point) (n : ℕ) → IsLeastSoFar points n least → IsGreatestSoFar points n greatest
        → AreExtremesSoFar points n result }
{
    if least.place == 0 && greatest.place == 0 {
        return None;
    }
    Some(Extremes {
        least: least.number,
        least_place: place_or(least.place, greatest.place),
        greatest: greatest.number,
        greatest_place: place_or(greatest.place, least.place),
    })
}

/// The place, or the other one where it is 0.
fn place_or(place: u32, other: u32) -> u32
    ensures some { 1 ≤ place → result ≡ place }
    ensures none { place ≡ 0 → result ≡ other }
{
    if place == 0 { other } else { place }
}
