//! Sums of two parts: their signs and magnitudes.

ghost use Rattle.std.specs.Prelude.{◌≡◌, ◌≢◌, ◌+◌, ◌^◌, ◌<◌, ◌≤◌, ◌+ℤ◌, ◌*ℤ◌, pos, nat_abs, true, false, IfOk};
ghost use Rattle.std.specs.Int.{is_negative};
ghost use Rattle.grib_long.specs.Digits.{value, size};
ghost use Rattle.grib_nearest.specs.Numbers.{number_of};

use crate::number::{FarSum, Number};
use grib_long::{Long, long_sum};
use std::alloc::{AllocError, Global};

impl Number {
    /// The number `high * 2 ^ gap + low`.
    #[inline]
    pub fn of(high: i64, gap: u32, low: i64) -> Number
        requires { gap ≤ 2 ^ 17 }
        ensures { number_of result ≡ (high *ℤ pos (2 ^ gap)) +ℤ low }
    {
        if gap < 64 {
            return Number::Near(near_sum(high, gap, low));
        }
        if high == 0 {
            return Number::Near(i128::from(low));
        }
        Number::Far(FarSum { high, gap, low })
    }

    /// Whether the number is below 0.
    pub(crate) fn is_negative(self) -> bool
        ensures { result ≡ is_negative (number_of self) }
    {
        match self {
            Number::Near(number) => number < 0,
            Number::Far(sum) => is_below_zero(sum.high),
        }
    }

    /// Whether the number is 0.
    pub(crate) fn is_zero(self) -> bool
        ensures zero { result ≡ true → number_of self ≡ pos 0 }
        ensures some { result ≡ false → number_of self ≢ pos 0 }
    {
        match self {
            Number::Near(number) => number == 0,
            Number::Far(_) => false,
        }
    }

    /// The number without its sign.
    pub(crate) fn magnitude(self, alloc: Global) -> Result<Long, AllocError>
        ensures value { IfOk result (λ n. value n ≡ nat_abs (number_of self)) }
        ensures size { IfOk result (λ n. size n ≤ 2 ^ 17 + 6) }
    {
        match self {
            Number::Near(number) => Long::of(alloc, number.unsigned_abs()),
            Number::Far(sum) => long_sum(alloc, sum.high, sum.gap, sum.low),
        }
    }
}

/// The number `high * 2 ^ gap + low`.
#[inline]
fn near_sum(high: i64, gap: u32, low: i64) -> i128
    requires { gap < 64 }
    ensures { result ≡ (high *ℤ pos (2 ^ gap)) +ℤ low }
{
    i128::from(high) * (1 << gap) + i128::from(low)
}

/// Whether the number is below 0.
fn is_below_zero(number: i64) -> bool
    ensures { result ≡ is_negative number }
{
    number < 0
}
