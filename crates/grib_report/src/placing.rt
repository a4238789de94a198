//! Places among the grid points, from those among the points that are present.

ghost use Rattle.std.specs.Prelude.{◌≡◌, ◌≤◌, List, length};
ghost use Rattle.grib_bitmap.specs.Mask.{present_count};
ghost use Rattle.grib_packing.specs.Column.{points_with_mask};
ghost use Rattle.grib_packing.specs.declared.column.Point.{Point as point_packing};
ghost use Rattle.grib_decimal.specs.Bounds.{AreExtremesSoFar};
ghost use Rattle.grib_decimal.specs.Summary.{SumUp, extremes_of, summary_of};
ghost use Rattle.grib_report.specs.Placed.{place_in};

use grib_base::MOST_POINTS;
use grib_bitmap::{Mask, ones};
use grib_decimal::{Extremes, Summary};

/// The summary of grid points, where that of the points that are present is known.
pub(crate) fn placed(summary: Summary, mask: &Mask) -> Summary
    requires few { length mask.now ≤ MOST_POINTS }
    requires sums { (entries : List point_packing) × (length entries ≡ present_count mask.now) × SumUp entries summary }
    ensures { (entries : List point_packing) → length entries ≡ present_count mask.now → SumUp entries summary
        → result ≡ summary_of (points_with_mask mask.now entries) }
{
    Summary {
        missing: summary.missing + (mask.len() - ones(mask)),
        extremes: placed_extremes(summary.extremes, mask),
        ..summary
    }
}

/// The extremes of grid points, where those of the points that are present are known.
fn placed_extremes(extremes: Option<Extremes>, mask: &Mask) -> Option<Extremes>
    requires { (entries : List point_packing) × (length entries ≡ present_count mask.now)
        × AreExtremesSoFar entries (length entries) extremes }
    ensures { (entries : List point_packing) → length entries ≡ present_count mask.now
        → AreExtremesSoFar entries (length entries) extremes → result ≡ extremes_of (points_with_mask mask.now entries) }
{
    let extremes = extremes?;
    Some(Extremes {
        least_place: place_of(mask, extremes.least_place),
        greatest_place: place_of(mask, extremes.greatest_place),
        ..extremes
    })
}

/// The place, from 1, of the grid point that is the `nth` present one, from 1.
fn place_of(mask: &Mask, nth: u32) -> u32
    requires some { 1 ≤ nth }
    requires within { nth ≤ present_count mask.now }
    ensures { result ≡ place_in mask.now nth }
{
    let mut place = 0;
    let mut left = nth;
    while place < mask.len() {
        let run = mask.run(place);
        if run.present {
            if left <= run.length {
                return place + left;
            }
            left -= run.length;
        }
        place += run.length;
    }
    unreachable!();
}
