//! Points that are all the same.

ghost use Rattle.std.specs.Prelude.{◌≡◌, ◌≤◌, length, replicate, true, false, MatchOption};
ghost use Rattle.grib_packing.specs.declared.column.Point as point_packing;

use grib_packing::Point;

/// The point that all points are, where they are all the same. It ends at the first that differs.
pub fn common_point(points: &[Point]) -> Option<Point>
    requires { 1 ≤ length points.now }
    ensures { MatchOption result
        ((point : point_packing.Point) → points.now ≡ replicate (length points.now) point → ⊥)
        (λ point. points.now ≡ replicate (length points.now) point) }
{
    let first = points[0];
    for index in 0..points.len() {
        if !is_same(points[index], first) {
            return None;
        }
    }
    Some(first)
}

/// Whether two points are the same.
#[inline(always)]
fn is_same(a: Point, b: Point) -> bool
    ensures same { result ≡ true → a ≡ b }
    ensures other { result ≡ false → a ≡ b → ⊥ }
{
    match a {
        Point::Scaled(x) => match b {
            Point::Scaled(y) => x == y,
            Point::Missing => false,
            Point::Missing2 => false,
        },
        Point::Missing => match b {
            Point::Scaled(_) => false,
            Point::Missing => true,
            Point::Missing2 => false,
        },
        Point::Missing2 => match b {
            Point::Scaled(_) => false,
            Point::Missing => false,
            Point::Missing2 => true,
        },
    }
}
