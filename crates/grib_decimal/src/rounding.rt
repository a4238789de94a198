//! Rounding of fractions, half to even.

ghost use Rattle.std.specs.Prelude.{◌≡◌, ℕ, ◌+◌, ◌/◌, ◌%◌, ◌^◌, ◌<◌, ◌≤◌};
ghost use Rattle.grib_decimal.specs.Rounding.{nearest};

/// A number to divide by. A power of two needs no division.
#[derive(Clone, Copy, Debug, PartialEq, Eq)]
pub(crate) enum Divisor {
    /// The power of this many bits.
    PowerOfTwo(u32),
    Other(u64),
}

/// The whole number nearest to a fraction with this whole part, this rest and this divisor.
#[inline]
pub(crate) fn round(whole: u64, rest: u64, divisor: u64) -> u64
    requires whole { whole < 2 ^ 63 }
    requires rest { rest < divisor }
    requires divisor { divisor ≤ 2 ^ 63 }
    ensures { (n : ℕ) → whole ≡ n / divisor → rest ≡ n % divisor → result ≡ nearest n divisor }
{
    let twice = 2 * rest;
    if twice < divisor {
        whole
    } else if divisor < twice {
        whole + 1
    } else {
        whole + whole % 2
    }
}

/// The whole number nearest to the fraction, the even one of two that are equally near.
pub(crate) fn nearest_wide(numerator: u128, denominator: u128) -> u128
    requires numerator { numerator < 2 ^ 126 }
    requires some { 0 < denominator }
    requires denominator { denominator < 2 ^ 126 }
    ensures nearest { result ≡ nearest numerator denominator }
{
    let whole = numerator / denominator;
    let twice = 2 * (numerator % denominator);
    if twice < denominator {
        whole
    } else if denominator < twice {
        whole + 1
    } else {
        whole + whole % 2
    }
}
