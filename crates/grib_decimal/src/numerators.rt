//! The numerators of points in 64 bits: how they are prepared and taken.

ghost use Rattle.std.specs.Prelude.{◌≡◌, ℤ, ℕ, ◌+◌, ◌*◌, ◌<◌, ◌≤◌, ◌^◌, pos, ◌≤ℤ◌, ◌<ℤ◌, ◌+ℤ◌, ◌*ℤ◌, nat_abs, IfSome};
ghost use Rattle.grib_decimal.specs.Divisors.{divisor_of};
ghost use Rattle.grib_decimal.specs.Parts.{IsQuick};
ghost use Rattle.grib_decimal.specs.Rounding.{nearest};
ghost use Rattle.std.specs.Int.{is_negative};

use crate::power::shifted;
use crate::quick::Quick;
use crate::rounded::Rounded;
use crate::rounding::Divisor;

impl Quick {
    /// For points with the value `(base + X * 2 ^ shift) * factor / divisor`, if so much fits.
    pub(crate) fn of(base: i128, shift: i64, factor: u128, divisor: u128) -> Option<Quick>
        requires shift { pos 0 ≤ℤ shift }
        requires factor { 0 < factor }
        requires divisor { 0 < divisor }
        ensures { IfSome result (λ q. IsQuick q base shift factor divisor) }
    {
        let factor = narrow_unsigned(factor)?;
        let origin = narrow(base.checked_mul(i128::from(factor))?)?;
        let stride = narrow(shifted(factor, shift)?)?;
        let divisor = narrow_unsigned(divisor)?;
        Quick::within(origin, stride, divisor)
    }

    /// With as large scaled numbers as 64 bits allow.
    fn within(origin: i64, stride: i64, divisor: i64) -> Option<Quick>
        requires stride { pos 0 <ℤ stride }
        requires divisor { pos 0 <ℤ divisor }
        ensures origin { IfSome result (λ q. q.origin ≡ origin) }
        ensures stride { IfSome result (λ q. q.stride ≡ stride) }
        ensures divisor { IfSome result (λ q. pos (divisor_of q.divisor) ≡ divisor) }
    {
        let room = i64::MAX.unsigned_abs().checked_sub(origin.unsigned_abs())?;
        Some(Quick {
            origin,
            stride,
            divisor: Divisor::of(divisor.unsigned_abs()),
            most: room / stride.unsigned_abs(),
        })
    }

    /// The numerator of the point with the scaled number X, with its sign, where it has 64 bits.
    #[inline]
    pub(crate) fn numerator(&self, x: i64) -> Option<i64>
        ensures exact { (base shift : ℤ) (factor divisor : ℕ) → IsQuick self.now base shift factor divisor
            → IfSome result (λ n. n ≡ (base +ℤ (x *ℤ pos (2 ^ nat_abs shift))) *ℤ pos factor) }
        ensures small { IfSome result (λ n. nat_abs n < 2 ^ 63) }
    {
        if x.unsigned_abs() > self.most {
            return None;
        }
        Some(self.origin + x * self.stride)
    }

    /// A numerator by the divisor, rounded.
    #[inline]
    pub(crate) fn rounded(&self, numerator: i64) -> Rounded
        requires { nat_abs numerator < 2 ^ 63 }
        ensures negative { result.negative ≡ is_negative numerator }
        ensures number { result.number ≡ nearest (nat_abs numerator) (divisor_of self.now.divisor) }
        ensures small { result.number ≤ 2 ^ 63 }
    {
        Rounded {
            negative: numerator < 0,
            number: u128::from(self.divisor.nearest(numerator.unsigned_abs())),
        }
    }
}

/// The number, if it has 64 bits with its sign.
fn narrow(number: i128) -> Option<i64>
    ensures { IfSome result (λ n. n ≡ number) }
{
    i64::try_from(number).ok()
}

/// The number, if it has 64 bits with a sign.
fn narrow_unsigned(number: u128) -> Option<i64>
    ensures { IfSome result (λ n. n ≡ pos number) }
{
    i64::try_from(number).ok()
}
