//! Points of two fields decided by numbers of any length.

ghost use Rattle.std.specs.Prelude.{◌≡◌, ◌+◌, ◌≤◌, ◌^◌, length, map, pos, ◌+ℤ◌, ◌*ℤ◌, IfOk};
ghost use Rattle.grib_same.specs.Levels.{IsBelow, whole_at};
ghost use Rattle.grib_same.specs.Sameness as definitions;
ghost use Rattle.grib_same.specs.Scales.{meant_by, value_by};
ghost use Rattle.grib_same.specs.Wholes.{value};

use crate::scale::ValueScale;
use crate::side::{Level, Side};
use crate::whole::Whole;
use grib_packing::Point;
use std::alloc::{AllocError, Global};

/// The number, from 1, of the first point that is not the same.
pub(crate) fn first_difference(
    alloc: Global,
    left: &ValueScale,
    left_points: &[Point],
    right: &ValueScale,
    right_points: &[Point],
) -> Result<Option<usize>, AllocError>
    requires { length left_points.now ≡ length right_points.now }
    ensures { IfOk result (λ at. at
        ≡ definitions.first_difference (map (meant_by left.now) left_points.now) (map (meant_by right.now) right_points.now)) }
{
    for i in 0..left_points.len() {
        let same = is_same_point(alloc, left, &left_points[i], right, &right_points[i])?;
        if !same {
            return Ok(Some(i + 1));
        }
    }
    Ok(None)
}

/// Whether two points mean the same.
fn is_same_point(
    alloc: Global,
    left: &ValueScale,
    left_point: &Point,
    right: &ValueScale,
    right_point: &Point,
) -> Result<bool, AllocError>
    ensures { IfOk result (λ same. same ≡ definitions.is_same_point (meant_by left.now left_point.now) (meant_by right.now right_point.now)) }
{
    match (*left_point, *right_point) {
        (Point::Scaled(x), Point::Scaled(y)) => is_same_value(alloc, left, x, right, y),
        (Point::Missing, Point::Missing) | (Point::Missing2, Point::Missing2) => Ok(true),
        _ => Ok(false),
    }
}

/// Whether the points with the scaled numbers X and Y have one value.
fn is_same_value(
    alloc: Global,
    left: &ValueScale,
    x: i64,
    right: &ValueScale,
    y: i64,
) -> Result<bool, AllocError>
    ensures { IfOk result (λ same. same ≡ definitions.is_same (value_by left.now x) (value_by right.now y)) }
{
    let left_side = Side::of(left);
    let right_side = Side::of(right);
    let level = Level::of(&left_side, &right_side);
    let left_whole = whole_of(alloc, &left_side, &level, x)?;
    let right_whole = whole_of(alloc, &right_side, &level, y)?;
    let same = left_whole.is(&right_whole);
    Ok(same)
}

/// The value of the point with the scaled number X, in the units of a level.
fn whole_of(alloc: Global, side: &Side, level: &Level, x: i64) -> Result<Whole, AllocError>
    requires { IsBelow level.now side.now }
    ensures { IfOk result (λ whole. value whole ≡ whole_at side.now level.now x) }
{
    let mantissa_twos = side.exponent.abs_diff(level.binary);
    let x_twos = side.e.abs_diff(level.binary);
    let sum = sum_of(alloc, side.mantissa, mantissa_twos, x, x_twos)?;
    let tens = level.decimal.abs_diff(side.d);
    let whole = sum.times_tens(alloc, tens)?;
    Ok(whole)
}

/// The number `a * 2 ^ a_twos + b * 2 ^ b_twos`.
fn sum_of(alloc: Global, a: i64, a_twos: u32, b: i64, b_twos: u32) -> Result<Whole, AllocError>
    ensures { IfOk result (λ whole. value whole ≡ ((a *ℤ pos (2 ^ a_twos)) +ℤ (b *ℤ pos (2 ^ b_twos)))) }
{
    if a_twos >= b_twos {
        let whole = ordered_sum(alloc, a, a_twos, b, b_twos)?;
        Ok(whole)
    } else {
        let turned = ordered_sum(alloc, b, b_twos, a, a_twos)?;
        Ok(turned)
    }
}

/// The number `high * 2 ^ high_twos + low * 2 ^ low_twos`.
fn ordered_sum(
    alloc: Global,
    high: i64,
    high_twos: u32,
    low: i64,
    low_twos: u32,
) -> Result<Whole, AllocError>
    requires { low_twos ≤ high_twos }
    ensures { IfOk result (λ whole. value whole ≡ ((high *ℤ pos (2 ^ high_twos)) +ℤ (low *ℤ pos (2 ^ low_twos)))) }
{
    let first = Whole::of(alloc, high);
    let sum = first.shifted_plus(alloc, high_twos - low_twos, low)?;
    let whole = sum.shifted_plus(alloc, low_twos, 0)?;
    Ok(whole)
}
