//! What follows from the definitions that the contracts cite: each law is the contract of a function that does
//! nothing.

ghost use Rattle.std.specs.Prelude.{◌≡◌, ℕ, ◌+◌, ◌*◌, ◌%◌, ◌<◌, ◌≤◌, ℤ, pos, neg_ℤ, codes, IsTrue, IsFalse, ◌≤ℤ◌};
ghost use Rattle.grib_decimal.specs.Order.{AtMost};
ghost use Rattle.grib_dyadic.specs.Reference.{Binary, binary};
ghost use Rattle.grib_dyadic.specs.Value.{Exact, value_of};
ghost use Rattle.grib_decimal.specs.Decimal.{decimal_text, is_too_large};
ghost use Rattle.grib_decimal.specs.Rounding.{nearest};

/// A rounded fraction is at most a half away from the fraction, and where two whole numbers are as near, it is the
/// even one.
pub fn rounding_is_to_the_nearest()
    ensures not_below { (n d : ℕ) → 0 < d → 2 * n ≤ (2 * nearest n d + 1) * d }
    ensures not_above { (n d : ℕ) → 0 < d → 2 * nearest n d * d ≤ 2 * n + d }
    ensures even { (n d k : ℕ) → 0 < d → 2 * n ≡ (2 * k + 1) * d → nearest n d % 2 ≡ 0 }
{}

/// Values rise with the scaled numbers.
pub fn values_rise_with_scaled_numbers()
    ensures { (r : Binary) (e d x y : ℤ) → x ≤ℤ y → AtMost (value_of r e d x) (value_of r e d y) }
{}

/// The texts of R = -949 * 2 ^ -3, E = -3, D = 1 and three places.
pub fn worked_texts()
    ensures first { decimal_text (value_of (binary (neg_ℤ (pos 949)) (neg_ℤ (pos 3))) (neg_ℤ (pos 3)) (pos 1) (pos 0)) 3
        ≡ codes "-11.862" }
    ensures second { decimal_text (value_of (binary (neg_ℤ (pos 949)) (neg_ℤ (pos 3))) (neg_ℤ (pos 3)) (pos 1) (pos 1)) 3
        ≡ codes "-11.850" }
    ensures third { decimal_text (value_of (binary (neg_ℤ (pos 949)) (neg_ℤ (pos 3))) (neg_ℤ (pos 3)) (pos 1) (pos 2)) 3
        ≡ codes "-11.838" }
    ensures last { decimal_text (value_of (binary (neg_ℤ (pos 949)) (neg_ℤ (pos 3))) (neg_ℤ (pos 3)) (pos 1) (pos 255)) 3
        ≡ codes "-8.675" }
{}

/// Halves go to the even neighbour, a value that is rounded to 0 has no sign, and no places have no point.
pub fn worked_halves()
    ensures down { decimal_text (value_of (binary (pos 0) (pos 0)) (neg_ℤ (pos 1)) (pos 0) (pos 5)) 0 ≡ codes "2" }
    ensures up { decimal_text (value_of (binary (pos 0) (pos 0)) (neg_ℤ (pos 1)) (pos 0) (pos 7)) 0 ≡ codes "4" }
    ensures zero { decimal_text (value_of (binary (pos 0) (pos 0)) (pos 0) (pos 4) (neg_ℤ (pos 5))) 3 ≡ codes "0.000" }
    ensures negative { decimal_text (value_of (binary (pos 0) (pos 0)) (pos 0) (pos 4) (neg_ℤ (pos 15))) 3
        ≡ codes "-0.002" }
{}

/// The bound is 2 ^ 126, for values other than 0.
pub fn worked_bounds()
    ensures below { IsFalse (is_too_large (value_of (binary (pos 1) (pos 125)) (pos 125) (pos 0) (pos 0)) 0) }
    ensures at { IsTrue (is_too_large (value_of (binary (pos 1) (pos 126)) (pos 126) (pos 0) (pos 0)) 0) }
    ensures zero { IsFalse (is_too_large (value_of (binary (pos 0) (pos 0)) (pos 32767) (pos 0) (pos 0)) 0) }
{}
