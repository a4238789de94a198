//! The points of a field.

ghost use Rattle.std.specs.Prelude.{◌≡◌, ◌≤◌, ◌<◌, ◌^◌, nat_abs, IfOk};
ghost use Rattle.grib_compare.specs.declared.comparison.Comparison.TheVariants.{Same};
ghost use Rattle.grib_compare.specs.Fields.{by_points};
ghost use Rattle.grib_compare.specs.Seen.{points_mean};

use crate::comparison::Comparison;
use grib_dyadic::Dyadic;
use grib_packing::Column;
use grib_same::{ValueScale, first_difference};
use std::alloc::{AllocError, Global};

/// The points of a field, and the numbers that give them their values.
#[derive(Debug, Drop)]
pub(crate) struct FieldPoints {
    column: Column,
    scale: ValueScale,
}

impl FieldPoints {
    /// The points of a column with this reference value.
    pub(crate) fn of(column: Column, reference: Dyadic) -> FieldPoints
        requires mantissa { nat_abs reference.mantissa < 2 ^ 24 }
        requires exponent { nat_abs reference.exponent ≤ 2 ^ 15 }
        ensures column { result.column ≡ column }
        ensures reference { result.scale.reference ≡ reference }
        ensures e_is { result.scale.e ≡ column.e }
        ensures d_is { result.scale.d ≡ column.d }
    {
        let scale = ValueScale::new(reference, column.e, column.d);
        FieldPoints { column, scale }
    }

    /// What is said of two fields by their points alone.
    ///
    /// # Errors
    ///
    /// There is no memory.
    pub(crate) fn beside(
        &self,
        alloc: Global,
        other: &FieldPoints,
    ) -> Result<Comparison, AllocError>
        ensures { IfOk result (λ comparison. comparison ≡ by_points (points_mean self.now) (points_mean other.now) Same) }
    {
        let here = self.column.points.as_slice();
        let there = other.column.points.as_slice();
        if here.len() != there.len() {
            return Ok(Comparison::Shape {
                here: here.len() as u64,
                there: there.len() as u64,
            });
        }
        match first_difference(alloc, &self.scale, here, &other.scale, there)? {
            None => Ok(Comparison::Same),
            Some(point) => Ok(Comparison::Differs {
                point: point as u64,
            }),
        }
    }
}
