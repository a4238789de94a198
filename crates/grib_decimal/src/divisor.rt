//! Division of numerators of 64 bits.

ghost use Rattle.std.specs.Prelude.{◌≡◌, ◌<◌, ◌≤◌, ◌^◌};
ghost use Rattle.grib_decimal.specs.Divisors.{divisor_of};
ghost use Rattle.grib_decimal.specs.Rounding.{nearest};

use crate::rounding::{Divisor, round};

impl Divisor {
    pub(crate) fn of(number: u64) -> Divisor
        requires { 0 < number }
        ensures { divisor_of result ≡ number }
    {
        let bits = number.trailing_zeros();
        if 1 << bits == number {
            Divisor::PowerOfTwo(bits)
        } else {
            Divisor::Other(number)
        }
    }

    /// The whole number nearest to the numerator by the divisor, the even one of two that are equally near.
    #[inline]
    pub(crate) fn nearest(self, numerator: u64) -> u64
        requires some { 0 < divisor_of self }
        requires divisor { divisor_of self < 2 ^ 63 }
        requires numerator { numerator < 2 ^ 63 }
        ensures { result ≡ nearest numerator (divisor_of self) }
    {
        match self {
            Divisor::PowerOfTwo(bits) => {
                let divisor = 1 << bits;
                round(numerator >> bits, numerator & (divisor - 1), divisor)
            }
            Divisor::Other(divisor) => round(numerator / divisor, numerator % divisor, divisor),
        }
    }
}
