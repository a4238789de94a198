//! Two fields side by side: the numbers of each, and powers at which the values of both are whole.

ghost use Rattle.std.specs.Prelude.{◌≡◌, ◌≤◌, ◌<◌, ◌^◌, nat_abs, IsTrue};

use crate::scale::ValueScale;
use grib_dyadic::scale_factor;

/// The numbers of a field. R is `mantissa * 2 ^ exponent`, and where it is 0, its exponent is E.
#[derive(Clone, Copy, Debug)]
pub(crate) struct Side {
    pub(crate) mantissa: i64,
    pub(crate) exponent: i32,
    pub(crate) e: i32,
    pub(crate) d: i32,
    ghost mantissa_small: { nat_abs mantissa < 2 ^ 24 },
    ghost exponent_small: { nat_abs exponent ≤ 2 ^ 15 },
    ghost e_small: { nat_abs e ≤ 2 ^ 15 },
    ghost d_small: { nat_abs d ≤ 2 ^ 15 },
}

/// Values are counted in `2 ^ binary / 10 ^ decimal`.
#[derive(Clone, Copy, Debug)]
pub(crate) struct Level {
    pub(crate) binary: i32,
    pub(crate) decimal: i32,
    ghost binary_small: { nat_abs binary ≤ 2 ^ 15 },
    ghost decimal_small: { nat_abs decimal ≤ 2 ^ 15 },
}

impl Side {
    ghost use Rattle.grib_same.specs.Levels.{IsSideOf};

    /// The numbers of a field.
    pub(crate) fn of(scale: &ValueScale) -> Side
        ensures { IsSideOf result scale.now }
    {
        let mantissa = scale.reference.signed_mantissa();
        let e = scale_factor(scale.e);
        let exponent = if mantissa == 0 {
            e
        } else {
            scale.reference.exponent()
        };
        Side {
            mantissa,
            exponent,
            e,
            d: scale_factor(scale.d),
        }
    }

    /// Whether both fields have the same numbers.
    pub(crate) fn is(&self, other: &Side) -> bool
        ensures mantissa { IsTrue result → self.now.mantissa ≡ other.now.mantissa }
        ensures exponent { IsTrue result → self.now.exponent ≡ other.now.exponent }
        ensures e_is { IsTrue result → self.now.e ≡ other.now.e }
        ensures d_is { IsTrue result → self.now.d ≡ other.now.d }
    {
        self.mantissa == other.mantissa
            && self.exponent == other.exponent
            && self.e == other.e
            && self.d == other.d
    }
}

impl Level {
    ghost use Rattle.grib_same.specs.Levels.{IsBelow};

    /// The coarsest units in which the values of both fields are whole.
    pub(crate) fn of(left: &Side, right: &Side) -> Level
        ensures left { IsBelow result left.now }
        ensures right { IsBelow result right.now }
    {
        let left_binary = left.exponent.min(left.e);
        let right_binary = right.exponent.min(right.e);
        Level {
            binary: left_binary.min(right_binary),
            decimal: left.d.max(right.d),
        }
    }
}
