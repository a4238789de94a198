//! What is seen of values before they are packed simply.

ghost use Rattle.std.specs.Prelude.{◌≡◌, []};
ghost use Rattle.grib_packing.specs.declared.column.Point.TheVariants.{Scaled};
ghost use Rattle.grib_simple_values.specs.Kept.{IsSeen, SeenKept, reach_of, seen-none, seen-more};

use grib_packing::{Keeper, Point};

/// What is seen of the points of values, as these come. No point is kept.
#[derive(Debug, Drop)]
pub struct Seen {
    /// The greatest number; all bits set where a number is negative or a value is secondary missing.
    pub greatest: u64,
    /// How many values are not missing.
    pub present: u32,
}

impl Seen {
    /// Before the first point.
    pub fn none() -> Seen
        ensures { IsSeen [] result }
    {
        Seen {
            greatest: 0,
            present: 0,
        }
    }
}

impl Keeper for Seen {
    ghost kept = { SeenKept };

    ghost room = { λ _. 4294967295 };

    #[inline(always)]
    fn room(&self) -> u32 {
        u32::MAX
    }

    #[inline(always)]
    fn keep(self, point: Point) -> Seen {
        match point {
            Point::Scaled(x) => Seen {
                greatest: self.greatest.max(reach(x)),
                present: self.present.wrapping_add(1),
            },
            Point::Missing => self,
            Point::Missing2 => Seen {
                greatest: u64::MAX,
                present: self.present,
            },
        }
    }

    #[inline(always)]
    fn keep_within(self, point: Point) -> Seen {
        self.keep(point)
    }

    ghost none = { seen-none };

    ghost more = { seen-more };
}

/// A scaled integer; all bits set where it is negative.
#[inline(always)]
fn reach(x: i64) -> u64
    ensures { result ≡ reach_of (Scaled x) }
{
    if x < 0 { u64::MAX } else { x.unsigned_abs() }
}
