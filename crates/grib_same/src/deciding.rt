//! How the points of two fields are decided in 128 bits.

ghost use Rattle.std.specs.Prelude.{◌≡◌, ◌+◌, length, map, pos, IfSome};
ghost use Rattle.grib_same.specs.Levels.{Decides};
ghost use Rattle.grib_same.specs.Sameness as definitions;
ghost use Rattle.grib_same.specs.Scales.{meant_by};
ghost use Rattle.grib_same.specs.declared.scale.ValueScale.{ValueScale as scales};

use crate::quick::{Line, Quick};
use crate::scale::ValueScale;
use crate::side::{Level, Side};
use grib_packing::Point;

impl Quick {
    /// What decides the points of two fields: the scaled numbers themselves where the scales are the same, else whole numbers
    /// in common units, where they have 127 bits.
    pub(crate) fn of(left: &ValueScale, right: &ValueScale) -> Option<Quick>
        ensures { IfSome result (λ quick. Decides quick left.now right.now) }
    {
        let left_side = Side::of(left);
        let right_side = Side::of(right);
        if left_side.is(&right_side) {
            return Some(Quick {
                left: plain(),
                right: plain(),
            });
        }
        let level = Level::of(&left_side, &right_side);
        let left_line = Line::of(&left_side, &level)?;
        let right_line = Line::of(&right_side, &level)?;
        Some(Quick {
            left: left_line,
            right: right_line,
        })
    }

    /// The number, from 1, of the first point that is not the same.
    pub(crate) fn first_difference(&self, left: &[Point], right: &[Point]) -> Option<usize>
        requires { length left.now ≡ length right.now }
        ensures { (l r : scales) → Decides self.now l r
            → result ≡ definitions.first_difference (map (meant_by l) left.now) (map (meant_by r) right.now) }
    {
        for i in 0..left.len() {
            if !self.is_same_point(&left[i], &right[i]) {
                return Some(i + 1);
            }
        }
        None
    }

    /// Whether two points mean the same.
    #[inline]
    fn is_same_point(&self, left: &Point, right: &Point) -> bool
        ensures { (l r : scales) → Decides self.now l r
            → result ≡ definitions.is_same_point (meant_by l left.now) (meant_by r right.now) }
    {
        match (*left, *right) {
            (Point::Scaled(x), Point::Scaled(y)) => self.left.at(x) == self.right.at(y),
            (Point::Missing, Point::Missing) | (Point::Missing2, Point::Missing2) => true,
            _ => false,
        }
    }
}

/// The scaled numbers themselves.
fn plain() -> Line
    ensures origin { result.origin ≡ pos 0 }
    ensures stride { result.stride ≡ pos 1 }
{
    Line {
        origin: 0,
        stride: 1,
    }
}
