//! The values of the points of a field, one after the other.

ghost use Rattle.std.specs.Prelude.{◌≡◌, ◌^◌, ◌<◌, ◌≤◌, nat_abs, length, map, IfOk};

use crate::{Exact, Value};
use grib_dyadic::Dyadic;
use grib_packing::{Column, Point};
use std::alloc::{AllocError, Global};

/// The values of the points of a field that are left, in the order of its grid. It holds 16 octets for each point.
#[derive(Debug, Drop)]
pub struct Points {
    reference: Dyadic,
    column: Column,
    before: usize,
    ghost small: { nat_abs reference.mantissa < 2 ^ 24 },
    ghost near: { nat_abs reference.exponent ≤ 2 ^ 15 },
    ghost within: { before ≤ length column.points },
}

impl Points {
    ghost use Rattle.grib.specs.Points.{values_left, values_of};

    /// All values of a column with this reference value.
    pub(crate) fn of(reference: Dyadic, column: Column) -> Points
        requires small { nat_abs reference.mantissa < 2 ^ 24 }
        requires near { nat_abs reference.exponent ≤ 2 ^ 15 }
        ensures values { values_left result ≡ values_of reference column column.points }
        ensures count { length (values_left result) ≡ length column.points }
    {
        Points {
            reference,
            column,
            before: 0,
        }
    }
}

impl Points {
    ghost use Rattle.grib.specs.Exact.{nearest_number};
    ghost use Rattle.grib.specs.Points.{number_of, value_at, values_left, values_of};

    /// What a point of the column holds.
    fn value_of(&self, point: Point) -> Value
        ensures { number_of result ≡ value_at self.now.reference self.now.column point }
    {
        match point {
            Point::Scaled(scaled) => Value::Number(Exact::of(
                &self.reference,
                self.column.e,
                self.column.d,
                scaled,
            )),
            Point::Missing | Point::Missing2 => Value::Missing,
        }
    }

    /// The binary64 number that is nearest to each value that is left.
    pub(crate) fn to_f64s(&self, alloc: Global) -> Result<Vec<Option<f64>>, AllocError>
        ensures { IfOk result (λ numbers. numbers.items ≡ map nearest_number (values_left self.now)) }
    {
        self.numbers_of(alloc, &self.column.points.as_slice()[self.before..])
    }

    /// The binary64 number that is nearest to the value of each of these points.
    fn numbers_of(&self, alloc: Global, points: &[Point]) -> Result<Vec<Option<f64>>, AllocError>
        ensures { IfOk result (λ numbers. numbers.items
            ≡ map nearest_number (values_of self.now.reference self.now.column points.now)) }
    {
        let mut numbers = Vec::with_capacity(alloc, points.len())?;
        for point in points {
            let number = self.value_of(*point).to_f64(alloc)?;
            numbers.push(number)?;
        }
        Ok(numbers)
    }
}

impl Iterator for Points {
    ghost use Rattle.std.specs.Iterator.{YieldsFirstBy, item_count};
    ghost use Rattle.grib.specs.Points.{values_left, number_of};

    type Item = Value;

    ghost next_gives = { YieldsFirstBy number_of values_left };

    ghost remaining = { item_count values_left };

    fn next(&mut self) -> Option<Value> {
        let point = *self.column.points.as_slice().get(self.before)?;
        self.before += 1;
        Some(self.value_of(point))
    }
}

impl ExactSizeIterator for Points {
    fn len(&self) -> usize {
        self.column.points.as_slice().len() - self.before
    }
}
