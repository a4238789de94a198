//! Where the points of a grid are, in steps from the first.

ghost use Rattle.std.specs.Prelude.{◌≡◌, ◌*◌, ◌/◌, ◌%◌, ◌<◌, ◌≤◌, ◌&&◌};
ghost use Rattle.grib_rescan.specs.Scanning.{turned, is_odd};
ghost use Rattle.grib_rescan.specs.Sections.{HasPoints};
ghost use Rattle.grib_places.specs.Places.{step_in, steps_of};
ghost use Rattle.grib_places.specs.Tables.{IsOrderOf};
ghost use Rattle.grib_places.specs.Steps.{steps_in};

use crate::coordinate::Coordinate;
use crate::order::StepOrder;
use grib_bits::{u8_at, u32_at};
use grib_rescan::Scanning;

impl StepOrder {
    /// Of a grid of template 3.0.
    pub(crate) fn of(section: &[u8]) -> StepOrder
        requires { HasPoints section.now }
        ensures { IsOrderOf result section.now }
    {
        let scanning = Scanning::of(u8_at(section, 72));
        StepOrder {
            by_columns: scanning.by_columns,
            alternates: scanning.alternates,
            columns: u32_at(section, 31),
            rows: u32_at(section, 35),
        }
    }

    /// How many steps of the coordinate lead from the first point to this one, counted from 0.
    #[inline]
    pub(crate) fn step(self, coordinate: Coordinate, point: u32) -> u32
        requires { point < self.columns * self.rows }
        ensures value { result ≡ step_in coordinate (steps_of self.by_columns self.alternates self.columns self.rows point) }
        ensures within { result < steps_in coordinate self }
    {
        match coordinate {
            Coordinate::Latitude => self.row(point),
            Coordinate::Longitude => self.column(point),
        }
    }

    /// The row of this point.
    #[inline]
    fn row(self, point: u32) -> u32
        requires { point < self.columns * self.rows }
        ensures value { result ≡ (steps_of self.by_columns self.alternates self.columns self.rows point).row }
        ensures within { result < self.rows }
    {
        if self.by_columns {
            place_in_line(self.alternates, self.rows, point)
        } else {
            point / self.columns
        }
    }

    /// The column of this point.
    #[inline]
    fn column(self, point: u32) -> u32
        requires { point < self.columns * self.rows }
        ensures value { result ≡ (steps_of self.by_columns self.alternates self.columns self.rows point).column }
        ensures within { result < self.columns }
    {
        if self.by_columns {
            point / self.rows
        } else {
            place_in_line(self.alternates, self.columns, point)
        }
    }
}

/// The place of this point in its row or column, which has so many points.
#[inline]
fn place_in_line(alternates: bool, count: u32, point: u32) -> u32
    requires { 1 ≤ count }
    ensures value { result ≡ turned (alternates && is_odd (point / count)) count (point % count) }
    ensures within { result < count }
{
    let place = point % count;
    if alternates && point / count % 2 == 1 {
        count - 1 - place
    } else {
        place
    }
}
