//! What is seen of a column in one pass, before it is packed. A column of one value, or wholly missing, is
//! known by its first point and their count.

ghost use Rattle.std.specs.Prelude.{◌≡◌, ◌-◌, ◌<◌, ◌≤◌, ◌∷◌, ℕ, List, length, replicate, None, MatchResult};
ghost use Rattle.grib_packing.specs.declared.column.Point as point_packing;
ghost use Rattle.grib_packing.specs.Misfits.{is_outside, plain_misfit};
ghost use Rattle.grib_simple.specs.Survey.{IsSurvey, Surveys};
ghost use Rattle.grib_packing.specs.Written.{IsPackFault};

use crate::common::common_point;
use grib_packing::{PackFault, Point};

/// What the points of a column have, for a packing whose numbers are 0 to some number, and which has a bitmap for
/// missing points.
#[derive(Clone, Copy, Debug)]
pub struct Survey {
    /// The greatest magnitude of a scaled integer, 0 for none.
    pub greatest: u64,
    /// How many scaled integers there are.
    pub present: u32,
    /// Whether a point is missing.
    pub missing: bool,
    /// The first point that is secondary missing, from 1, 0 for none.
    pub secondary: u32,
    /// The first point, from 1, whose number is negative or above the most, 0 for none.
    pub too_wide: u32,
    /// Whether all points are known to be the same, so that each scaled integer is the greatest.
    pub same: bool,
}

impl Survey {
    /// The survey of these points, for a packing whose greatest number is `most`.
    pub fn of(points: &[Point], most: u64) -> Survey
        requires some { 1 ≤ length points.now }
        requires few { length points.now ≤ 33554432 }
        ensures { IsSurvey most result points.now }
    {
        match common_point(points) {
            Some(point) => Survey::of_same(point, points.len() as u32, most),
            None => Survey::of_each(points, most),
        }
    }

    /// The survey of this many points that are all this one.
    fn of_same(point: Point, count: u32, most: u64) -> Survey
        requires { 1 ≤ count }
        ensures { IsSurvey most result (replicate count point) }
    {
        let one = Survey::of_none().with(1, point, most);
        Survey {
            present: one.present * count,
            same: true,
            ..one
        }
    }

    /// The survey of points which are looked at one after another.
    fn of_each(points: &[Point], most: u64) -> Survey
        requires { length points.now ≤ 33554432 }
        ensures { IsSurvey most result points.now }
    {
        let mut survey = Survey::of_none();
        for index in 0..points.len() {
            survey = survey.with(index as u32 + 1, points[index], most);
        }
        survey
    }

    /// The survey of no points yet.
    fn of_none() -> Survey
        ensures survey { (most : ℕ) (points : List point_packing.Point) → Surveys most result 0 points points }
        ensures none { result.present ≡ 0 }
    {
        Survey {
            greatest: 0,
            present: 0,
            missing: false,
            secondary: 0,
            too_wide: 0,
            same: false,
        }
    }

    /// The survey with one point more, at this place.
    #[inline(always)]
    fn with(self, place: u32, point: Point, most: u64) -> Survey
        requires { self.present < place }
        ensures survey { (rest points : List point_packing.Point)
            → Surveys most self (place - 1) (point ∷ rest) points → Surveys most result place rest points }
        ensures few { result.present ≤ place }
    {
        match point {
            Point::Scaled(x) => self.with_number(place, x, most),
            Point::Missing => Survey {
                missing: true,
                ..self
            },
            Point::Missing2 => Survey {
                secondary: found(self.secondary, place),
                ..self
            },
        }
    }

    /// The survey with one scaled integer more.
    #[inline(always)]
    fn with_number(self, place: u32, x: i64, most: u64) -> Survey
        requires { self.present < place }
        ensures survey { (rest points : List point_packing.Point)
            → Surveys most self (place - 1) (Point.Scaled x ∷ rest) points → Surveys most result place rest points }
        ensures few { result.present ≤ place }
    {
        let too_wide = if is_too_wide(x, most) {
            found(self.too_wide, place)
        } else {
            self.too_wide
        };
        Survey {
            greatest: self.greatest.max(x.unsigned_abs()),
            present: self.present + 1,
            too_wide,
            ..self
        }
    }

    /// Whether the packing has room for all, else the first misfit.
    ///
    /// # Errors
    ///
    /// A point is secondary missing, or a scaled integer is negative or above the most.
    pub fn fits(self) -> Result<(), PackFault>
        ensures { (most : ℕ) (points : List point_packing.Point) → IsSurvey most self points → MatchResult result
            (λ _. plain_misfit most points ≡ None)
            (IsPackFault (plain_misfit most points)) }
    {
        if self.secondary > 0 {
            return Err(PackFault::SecondaryMissing(self.secondary));
        }
        if self.too_wide > 0 {
            return Err(PackFault::OutOfRange(self.too_wide));
        }
        Ok(())
    }
}

/// Whether a scaled integer is negative or above the most.
#[inline(always)]
fn is_too_wide(x: i64, most: u64) -> bool
    ensures { result ≡ is_outside most x }
{
    x < 0 || x.unsigned_abs() > most
}

/// The place that was found before, or this one.
#[inline(always)]
fn found(before: u32, place: u32) -> u32
    ensures before { 1 ≤ before → result ≡ before }
    ensures here { before ≡ 0 → result ≡ place }
{
    if before > 0 { before } else { place }
}
