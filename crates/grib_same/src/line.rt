//! Values as whole numbers of 127 bits.

ghost use Rattle.std.specs.Prelude.{◌≡◌, ◌<◌, ◌≤◌, ◌^◌, ℤ, pos, ◌+ℤ◌, ◌*ℤ◌, ◌-ℤ◌, nat_abs, IfSome};
ghost use Rattle.grib_same.specs.Levels.{IsBelow, whole_at, line_at};

use crate::quick::Line;
use crate::side::{Level, Side};

impl Line {
    /// The numbers of a field in the units of a level, where they have 127 bits.
    pub(crate) fn of(side: &Side, level: &Level) -> Option<Line>
        requires { IsBelow level.now side.now }
        ensures { IfSome result (λ line. (x : ℤ) → line_at line x ≡ whole_at side.now level.now x) }
    {
        let tens = power_of_ten(level.decimal.abs_diff(side.d))?;
        let number = i128::from(side.mantissa) * i128::from(tens);
        let origin = shifted(number, side.exponent.abs_diff(level.binary))?;
        let stride = shifted_tens(tens, side.e.abs_diff(level.binary))?;
        Some(Line { origin, stride })
    }

    /// The number of the point with the scaled number X.
    #[inline]
    pub(crate) fn at(&self, x: i64) -> i128
        ensures { result ≡ line_at self.now x }
    {
        self.origin + i128::from(x) * i128::from(self.stride)
    }
}

/// `10 ^ tens`, if it has 63 bits.
fn power_of_ten(tens: u32) -> Option<i64>
    ensures value { IfSome result (λ n. n ≡ pos (10 ^ tens)) }
    ensures small { IfSome result (λ n. nat_abs n < 2 ^ 60) }
{
    if tens > 18 {
        return None;
    }
    Some(10i64.pow(tens))
}

/// `number * 2 ^ twos`, if it has 126 bits.
fn shifted(number: i128, twos: u32) -> Option<i128>
    ensures value { IfSome result (λ n. n ≡ number *ℤ pos (2 ^ twos)) }
    ensures small { IfSome result (λ n. nat_abs n < 2 ^ 126) }
{
    if number == 0 {
        return Some(0);
    }
    if twos > 125 {
        return None;
    }
    let product = number.checked_mul(1 << twos)?;
    if product.unsigned_abs() < 1 << 126 {
        Some(product)
    } else {
        None
    }
}

/// `number * 2 ^ twos`, if it has 63 bits.
fn shifted_tens(number: i64, twos: u32) -> Option<i64>
    ensures { IfSome result (λ n. n ≡ number *ℤ pos (2 ^ twos)) }
{
    if twos > 62 {
        return None;
    }
    number.checked_mul(1 << twos)
}
