//! The points of a field, counted, with their extremes.

ghost use Rattle.std.specs.Prelude.{◌≡◌, ◌≤◌, length};
ghost use Rattle.grib_decimal.specs.Bounds.{AreExtremesSoFar};
ghost use Rattle.grib_decimal.specs.Summary.{summary_of};

use crate::extreme::Summary;
use crate::tally::Tally;
use grib_base::MOST_POINTS;
use grib_packing::Column;

/// What is summed up of the points of a field. It takes no memory.
pub fn summary(column: &Column) -> Summary
    requires { length column.now.points ≤ MOST_POINTS }
    ensures summary { result ≡ summary_of column.now.points }
    ensures extremes { AreExtremesSoFar column.now.points (length column.now.points) result.extremes }
{
    let points = column.points.as_slice();
    let mut tally = Tally::none();
    for index in 0..points.len() {
        tally = tally.with(points[index]);
    }
    tally.summary()
}
