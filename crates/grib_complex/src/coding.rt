//! What the codes of a column rest on.

ghost use Rattle.std.specs.Prelude.{◌≡◌, ◌≤◌, ◌∷◌, [], length, true, Some};
ghost use Rattle.grib_packing.specs.Misfits.{OutOfRange, ToComplex, first_misfit, is_outside as is_outside_of, is_scaled_outside, management_of};
ghost use Rattle.grib_codes.specs.KeptWords.{has_outside};

use grib_packing::Point;

/// The missing value management of these points (code table 5.5), which is also how many codes are reserved:
/// 2 where a point is secondary missing, else 1 where one is missing, else 0.
pub fn management(points: &[Point]) -> u8
    ensures is { result ≡ management_of points.now }
    ensures few { result ≤ 2 }
{
    let mut most = 0;
    for point in points {
        most = marks(*point).max(most);
    }
    most
}

/// How many codes are reserved for a point alone.
#[inline(always)]
pub fn marks(point: Point) -> u8
    ensures is { result ≡ management_of (point ∷ []) }
    ensures few { result ≤ 2 }
{
    match point {
        Point::Scaled(_) => 0,
        Point::Missing => 1,
        Point::Missing2 => 2,
    }
}

/// The first point, from 1, whose number is negative, or takes more than 32 bits with the reserved codes.
pub fn first_outside(points: &[Point]) -> u32
    requires few { length points.now ≤ 33554432 }
    requires some { has_outside points.now ≡ true }
    ensures { first_misfit ToComplex points.now ≡ Some (OutOfRange result) }
{
    let greatest = u32::MAX - u32::from(management(points));
    for index in 0..points.len() {
        if is_point_outside(points[index], greatest) {
            return index as u32 + 1;
        }
    }
    unreachable!()
}

/// Whether the number of a point is outside 0 to the greatest.
fn is_point_outside(point: Point, greatest: u32) -> bool
    ensures { result ≡ is_scaled_outside greatest point }
{
    match point {
        Point::Scaled(x) => is_outside(x, greatest),
        _ => false,
    }
}

/// Whether a number is outside 0 to the greatest.
#[inline(always)]
pub fn is_outside(x: i64, greatest: u32) -> bool
    ensures { result ≡ is_outside_of greatest x }
{
    x < 0 || x.unsigned_abs() > u64::from(greatest)
}
