//! Columns and rows of a grid as lines of points.

ghost use Rattle.std.specs.Prelude.{◌<◌, ◌≤◌, ◌^◌, nat_abs};
ghost use Rattle.grib_base.specs.declared.limits.TheConstants.{MOST_POINTS};

use grib_base::MOST_POINTS;

/// So many points in a line, each as far from the one before: the first, and the way from it to the last, in 10^-6 degree.
#[derive(Clone, Copy, Debug)]
pub(crate) struct Line {
    pub(crate) first: i64,
    pub(crate) way: i64,
    pub(crate) count: u32,
    ghost first_small: { nat_abs first < 2 ^ 32 },
    ghost way_small: { nat_abs way < 2 ^ 32 },
    ghost some: { 1 ≤ count },
    ghost few: { count ≤ MOST_POINTS },
}
