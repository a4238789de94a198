//! What is worked out once for all points of a field.

ghost use Rattle.std.specs.Prelude.{ℤ, ℕ, ◌<◌, ◌^◌, pos, ◌≤ℤ◌, IfSome, SomeIff};
ghost use Rattle.grib_decimal.specs.Parts.{IsKnown, IsQuick};

use crate::quick::Quick;

/// What serves points in 64 bits, if all that it rests on is known and fits.
pub(crate) fn quick_of(
    base: Option<i128>,
    shift: i64,
    factor: Option<u128>,
    divisor: Option<u128>,
) -> Option<Quick>
    requires shift { pos 0 ≤ℤ shift }
    requires factor { IfSome factor (λ n. 0 < n) }
    requires divisor { IfSome divisor (λ n. 0 < n) }
    ensures { (b : ℤ) (f d : ℕ) → IsKnown 127 base b → SomeIff factor (f < 2 ^ 126) f
        → SomeIff divisor (d < 2 ^ 126) d → IfSome result (λ q. IsQuick q b shift f d) }
{
    Quick::of(base?, shift, factor?, divisor?)
}
