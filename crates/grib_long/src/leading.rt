//! The first digits of a number.

ghost use Rattle.std.specs.Prelude.{◌≡◌, ℕ, ◌+◌, ◌*◌, ◌^◌, ◌<◌, ◌≤◌};
ghost use Rattle.grib_long.specs.Begun.{IsBegun};
ghost use Rattle.grib_long.specs.Digits.{value, size};
ghost use Rattle.grib_long.specs.Floor.{IsFloor};

use crate::long::Long;

/// Steps of more bits than this are not shifted to take in a further digit.
const ENOUGH: u128 = 1 << 94;

/// A number is `steps * 2 ^ exponent`, and less than a step more where there is more.
#[derive(Clone, Copy, Debug, PartialEq, Eq)]
pub struct Leading {
    pub steps: u128,
    pub more: bool,
    pub exponent: u32,
}

impl Leading {
    /// With one digit more of the number.
    fn with(self, digit: u32) -> Leading
        requires { self.exponent ≤ 2 ^ 26 }
        ensures begun { (number : ℕ) → IsBegun number self → IsBegun (number * 2 ^ 32 + digit) result }
        ensures exponent { result.exponent ≤ self.exponent + 32 }
    {
        if self.steps < ENOUGH {
            return Leading {
                steps: (self.steps << 32) + u128::from(digit),
                more: false,
                exponent: 0,
            };
        }
        Leading {
            steps: self.steps,
            more: self.more || digit != 0,
            exponent: self.exponent + 32,
        }
    }
}

impl Long {
    /// The first digits of the number, as many as 126 bits.
    pub fn leading(&self) -> Leading
        requires { size self.now ≤ 2 ^ 20 }
        ensures floor { IsFloor (value self.now) result.steps (2 ^ result.exponent) result.more }
        ensures few { result.steps < 2 ^ 126 }
        ensures many { 2 ^ 94 ≤ value self.now → 2 ^ 94 ≤ result.steps }
        ensures exponent { result.exponent ≤ 32 * size self.now }
    {
        let mut leading = Leading {
            steps: 0,
            more: false,
            exponent: 0,
        };
        for digit in self.digits.as_slice() {
            leading = leading.with(*digit);
        }
        leading
    }
}
