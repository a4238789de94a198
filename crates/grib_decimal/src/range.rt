//! Which points of a field have no text.

ghost use Rattle.std.specs.Prelude.{◌≡◌, ◌≤◌, List, length, true, false, None};
ghost use Rattle.std.specs.List.{list_any};
ghost use Rattle.grib_packing.specs.declared.column.Point.{Point as point_packing};
ghost use Rattle.grib_packing.specs.Entries.{is_out_of_range};
ghost use Rattle.grib_decimal.specs.Range as definitions;

use crate::bounds::extremes;
use crate::scale::DecimalScale;
use grib_base::MOST_POINTS;
use grib_packing::{Column, Point};

/// The greatest magnitude of a scaled number of an accepted field.
const MOST: i64 = 1 << 60;

impl DecimalScale {
    /// Whether the values of all scaled numbers from -2^60 to 2^60 are known to have texts, and so those of the
    /// points of any accepted field: values rise with the scaled numbers. No point is looked at.
    pub fn holds_all(&self) -> bool
        ensures { result ≡ true → (points : List point_packing) → list_any is_out_of_range points ≡ false
            → definitions.first_too_large self.now points ≡ None }
    {
        !self.is_too_large(-MOST) && !self.is_too_large(MOST)
    }

    /// The place, from 1, of the first point of the field whose value is too large for a text. The least and the
    /// greatest scaled number tell whether there is one. It takes no memory.
    pub fn first_too_large(&self, column: &Column) -> Option<u32>
        requires few { length column.now.points ≤ MOST_POINTS }
        ensures { result ≡ definitions.first_too_large self.now column.now.points }
    {
        let bounds = extremes(column)?;
        if self.is_too_large(bounds.least) || self.is_too_large(bounds.greatest) {
            self.first_among(column.points.as_slice())
        } else {
            None
        }
    }

    /// The place, from 1, of the first of some points whose value is too large for a text.
    fn first_among(&self, points: &[Point]) -> Option<u32>
        requires few { length points.now ≤ MOST_POINTS }
        ensures { result ≡ definitions.first_too_large self.now points.now }
    {
        for index in 0..points.len() {
            if self.is_point_too_large(points[index]) {
                return Some(index as u32 + 1);
            }
        }
        None
    }

    /// Whether the point has a value, which is too large for a text.
    fn is_point_too_large(&self, point: Point) -> bool
        ensures { result ≡ definitions.is_point_too_large self.now point }
    {
        match point {
            Point::Scaled(x) => self.is_too_large(x),
            Point::Missing | Point::Missing2 => false,
        }
    }
}
