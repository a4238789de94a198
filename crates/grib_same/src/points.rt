//! The first point that is not the same.

ghost use Rattle.std.specs.Prelude.{◌≡◌, length, map, IfOk};
ghost use Rattle.grib_same.specs.Sameness as definitions;
ghost use Rattle.grib_same.specs.Scales.{meant_by};

use crate::quick::Quick;
use crate::scale::ValueScale;
use crate::slow;
use grib_packing::Point;
use std::alloc::{AllocError, Global};

/// The number, from 1, of the first point that does not mean the same in both fields, if there is one: it is missing in one
/// of them alone, or it is missing in two ways (code table 5.5), or its values differ as exact numbers.
///
/// It takes no memory where the values of both fields are whole numbers of 127 bits in common units, or the two scales are
/// the same.
///
/// # Errors
///
/// There is no memory.
pub fn first_difference(
    alloc: Global,
    left: &ValueScale,
    left_points: &[Point],
    right: &ValueScale,
    right_points: &[Point],
) -> Result<Option<usize>, AllocError>
    requires { length left_points.now ≡ length right_points.now }
    ensures { IfOk result (λ at. at
        ≡ definitions.first_difference (map (meant_by left.now) left_points.now) (map (meant_by right.now) right_points.now)) }
{
    match Quick::of(left, right) {
        Some(quick) => Ok(quick.first_difference(left_points, right_points)),
        None => slow::first_difference(alloc, left, left_points, right, right_points),
    }
}
