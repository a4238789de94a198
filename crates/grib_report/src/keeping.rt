//! The summary of the points of values, as these come.

ghost use Rattle.std.specs.Prelude.{◌≤◌, List, length};
ghost use Rattle.grib_packing.specs.declared.column.Point.{Point as point_packing};
ghost use Rattle.grib_decimal.specs.Summary.{SumUp};
ghost use Rattle.grib_report.specs.declared.keeping.Tallying.{Tallying as tallying};
ghost use Rattle.grib_report.specs.Kept.{IsStart, TallyKept};
ghost use Rattle.grib_report.specs.Laws.{tally-none, tally-more};

use grib_base::MOST_POINTS;
use grib_decimal::{Summary, Tally};
use grib_packing::{Keeper, Point};

/// The summary of the points of values so far. No point is kept.
#[derive(Debug, Drop)]
pub(crate) struct Tallying {
    tally: Tally,
}

impl Tallying {
    /// Before the first point.
    pub(crate) fn start() -> Tallying
        ensures { IsStart result }
    {
        Tallying {
            tally: Tally::none(),
        }
    }

    /// The summary, once all points came.
    pub(crate) fn finish(self) -> Summary
        ensures { (start : tallying) (points : List point_packing) → length points ≤ MOST_POINTS
            → IsStart start → TallyKept start points self → SumUp points result }
    {
        self.tally.summary()
    }
}

impl Keeper for Tallying {
    ghost kept = { TallyKept };

    ghost room = { λ _. 4294967295 };

    #[inline(always)]
    fn room(&self) -> u32 {
        u32::MAX
    }

    #[inline(always)]
    fn keep(self, point: Point) -> Tallying {
        Tallying {
            tally: self.tally.with(point),
        }
    }

    #[inline(always)]
    fn keep_within(self, point: Point) -> Tallying {
        self.keep(point)
    }

    ghost none = { tally-none };

    ghost more = { tally-more };
}
