//! Points whose numerators or denominators have more than 64 bits.

ghost use Rattle.std.specs.Prelude.{◌≡◌, ℤ, ℕ, ◌⊎◌, ◌*◌, ◌<◌, ◌≤◌, ◌^◌, pos, ◌≤ℤ◌, ◌+ℤ◌, ◌*ℤ◌, nat_abs, IfSome, SomeIff};
ghost use Rattle.grib_dyadic.specs.Value.{Exact};
ghost use Rattle.grib_decimal.specs.Decimal.{factor as factor_of, denominator as denominator_of};
ghost use Rattle.grib_decimal.specs.Parts.{IsKnown};
ghost use Rattle.grib_decimal.specs.Rounded.{IsRounding};

use crate::power::{BOUND, shifted};
use crate::rounded::Rounded;
use crate::rounding::nearest_wide;

/// `base + x * 2 ^ shift`, if it is known to be below `2 ^ 126`.
pub(crate) fn number(base: Option<i128>, shift: i64, x: i64) -> Option<i128>
    requires { pos 0 ≤ℤ shift }
    ensures { (b : ℤ) → IsKnown 127 base b
        → (nat_abs b ≤ 2 ^ 63) ⊎ (nat_abs (x *ℤ pos (2 ^ nat_abs shift)) ≤ 2 ^ 63)
        → IsKnown 126 result (b +ℤ (x *ℤ pos (2 ^ nat_abs shift))) }
{
    base?.checked_add(shifted(x, shift)?)
}

/// The number times the factor by the divisor, rounded, unless that is too large.
pub(crate) fn round_wide(
    number: Option<i128>,
    factor: Option<u128>,
    divisor: Option<u128>,
) -> Option<Rounded>
    requires some { IfSome divisor (λ n. 0 < n) }
    requires small { IfSome divisor (λ n. n < 2 ^ 126) }
    ensures { (v : Exact) (places : ℕ) → IsKnown 126 number v.number
        → SomeIff factor (factor_of v.binary v.decimal places < 2 ^ 126) (factor_of v.binary v.decimal places)
        → SomeIff divisor (denominator_of v places < 2 ^ 126) (denominator_of v places)
        → IsRounding v places result }
{
    let number = number?;
    if number == 0 {
        return Some(Rounded {
            negative: false,
            number: 0,
        });
    }
    let numerator = product(number.unsigned_abs(), factor?)?;
    Some(Rounded {
        negative: number < 0,
        number: nearest_wide(numerator, divisor?),
    })
}

/// The product, if it is below the bound.
fn product(a: u128, b: u128) -> Option<u128>
    ensures { SomeIff result (a * b < 2 ^ 126) (a * b) }
{
    let product = a.checked_mul(b)?;
    if product < BOUND { Some(product) } else { None }
}
