//! What is summed up of the field that is made from a number.

ghost use Rattle.std.specs.Prelude.{◌≡◌, ◌+◌, ◌^◌, ◌<◌, ◌≤◌, false, List, [], ◌∷◌, ◌++◌};
ghost use Rattle.grib_packing.specs.declared.column.Point as point_packing;
ghost use Rattle.grib_packing.specs.Misfits.{is_scaled_outside};
ghost use Rattle.grib_synthetic.specs.Points.{made_points};
ghost use Rattle.grib_synthetic.specs.Summary.{present_count, present_sum, SumsUp};

use crate::points::Maker;
use grib_packing::Point;

/// What is summed up of the points of a field.
#[derive(Clone, Copy, Debug, PartialEq, Eq)]
pub struct Summary {
    /// How many points are not missing.
    pub present: u64,
    /// The sum of their scaled integers.
    pub sum: u64,
}

/// What is summed up of the field that `made_message` makes. It takes no memory. The seed is below 2^31,
/// `ni` and `nj` are 1 to 4,096.
pub fn made_summary(seed: u32, ni: u32, nj: u32) -> Summary
    requires seed { seed < 2 ^ 31 }
    requires some_columns { 1 ≤ ni }
    requires few_columns { ni ≤ 4096 }
    requires some_rows { 1 ≤ nj }
    requires few_rows { nj ≤ 4096 }
    ensures present { result.present ≡ present_count (made_points seed ni nj) }
    ensures sum { result.sum ≡ present_sum (made_points seed ni nj) }
{
    let mut maker = Maker::new(seed, ni);
    let mut summary = Summary { present: 0, sum: 0 };
    for _made in 0..ni * nj {
        summary = summary.with(maker.next());
    }
    summary
}

impl Summary {
    /// The summary with one point more, whose scaled integer is not negative and has at most 14 bits.
    #[inline]
    fn with(self, point: Point) -> Summary
        requires small { is_scaled_outside 16383 point ≡ false }
        requires present { self.present + 1 < 2 ^ 64 }
        requires sum { self.sum + 16383 < 2 ^ 64 }
        ensures sums { (points : List point_packing.Point) → SumsUp self points → SumsUp result (points ++ point ∷ []) }
        ensures present { result.present ≤ self.present + 1 }
        ensures sum { result.sum ≤ self.sum + 16383 }
    {
        match point {
            Point::Scaled(x) => Summary {
                present: self.present + 1,
                sum: self.sum + x.unsigned_abs(),
            },
            Point::Missing | Point::Missing2 => self,
        }
    }
}
