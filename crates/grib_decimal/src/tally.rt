//! Points that are counted one after another, with their extremes.

ghost use Rattle.std.specs.Prelude.{◌≡◌, ℕ, ◌+◌, ◌<◌, ◌≤◌, List, length, get_or};
ghost use Rattle.grib_packing.specs.declared.column.Point.{Point as point_packing};
ghost use Rattle.grib_packing.specs.declared.column.Point.TheVariants.{Missing};
ghost use Rattle.grib_decimal.specs.Summary.{IsTally, SumUp};

use crate::bounds::{Greatest, Least, extremes_between};
use crate::extreme::Summary;
use grib_base::MOST_POINTS;
use grib_packing::Point;

/// What is summed up of points that come one after another, as the entries of a field that is unpacked.
#[derive(Clone, Copy, Debug)]
pub struct Tally {
    /// How many points came.
    count: u32,
    missing: u32,
    missing2: u32,
    least: Least,
    greatest: Greatest,
}

impl Tally {
    /// The tally of no points.
    pub fn none() -> Tally
        ensures { (points : List point_packing) → IsTally points 0 result }
    {
        Tally {
            count: 0,
            missing: 0,
            missing2: 0,
            least: Least::none(),
            greatest: Greatest::none(),
        }
    }

    /// The tally with the next point.
    #[inline(always)]
    pub fn with(self, point: Point) -> Tally
        ensures { (points : List point_packing) (n : ℕ) → length points ≤ MOST_POINTS → n < length points
            → get_or points n Missing ≡ point → IsTally points n self → IsTally points (n + 1) result }
    {
        let count = self.count.wrapping_add(1);
        match point {
            Point::Scaled(number) => Tally {
                count,
                least: self.least.with(number, count),
                greatest: self.greatest.with(number, count),
                ..self
            },
            Point::Missing => Tally {
                count,
                missing: self.missing.wrapping_add(1),
                ..self
            },
            Point::Missing2 => Tally {
                count,
                missing2: self.missing2.wrapping_add(1),
                ..self
            },
        }
    }

    /// The summary, once all points came.
    pub fn summary(self) -> Summary
        ensures { (points : List point_packing) → length points ≤ MOST_POINTS → IsTally points (length points) self
            → SumUp points result }
    {
        Summary {
            present: self
                .count
                .wrapping_sub(self.missing)
                .wrapping_sub(self.missing2),
            missing: self.missing,
            missing2: self.missing2,
            extremes: extremes_between(self.least, self.greatest),
        }
    }
}
