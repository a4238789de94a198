ghost use Rattle.std.specs.Prelude.{◌≡◌, ℕ, ◌*◌, ◌^◌, ◌<◌, ◌≤◌, ◌↔◌, pos, ◌+ℤ◌, ◌-ℤ◌, ◌≤ℤ◌, nat_abs, IsSome, IfSome, IfNone};
ghost use Rattle.grib_dyadic.specs.Reference.{binary, ibm, ibm_a, SameNumber, IsReduced, reduced, HasIbm, HasIbmAt};

use crate::dyadic::Dyadic;
use crate::word::{bit_length, digits_at, signed_word};

impl Dyadic {
    /// The number that a word of the IBM single form stands for.
    pub fn from_ibm(word: u32) -> Self
        ensures number { SameNumber result (ibm word) }
        ensures reduced { IsReduced result }
        ensures value { result ≡ reduced (ibm word) }
        ensures mantissa { nat_abs result.mantissa < 2 ^ 24 }
        ensures exponent { nat_abs result.exponent ≤ 2 ^ 15 }
    {
        let a = (word >> 24) & 0x7f;
        Dyadic::new(word >> 31 == 1, word & 0xff_ffff, 4 * a as i32 - 280)
    }

    /// The word of the IBM single form that stands for the number, if there is one: of several,
    /// the one with the least A.
    pub fn to_ibm(&self) -> Option<u32>
        ensures exact { IsSome result ↔ HasIbm self.now }
        ensures word { IfSome result (λ w. w < 2 ^ 32) }
        ensures number { IfSome result (λ w. SameNumber (ibm w) self.now) }
        ensures least { IfSome result
            (λ w. (x : ℕ) → x < 2 ^ 32 → SameNumber (ibm x) self.now → ibm_a w ≤ ibm_a x) }
        ensures no_word { IfNone result ((x : ℕ) → x < 2 ^ 32 → ¬ (SameNumber (ibm x) self.now)) }
        ensures zero { self.now.mantissa ≡ pos 0 → result ≡ Some 0 }
    {
        let magnitude = ibm_magnitude(self.mantissa(), self.exponent())?;
        Some(signed_word(self.negative(), magnitude))
    }
}

/// The word, with no sign, of `mantissa * 2 ^ exponent`.
fn ibm_magnitude(mantissa: u64, exponent: i32) -> Option<u32>
    requires { IsReduced (binary (pos mantissa) exponent) }
    ensures exact { IsSome result ↔ HasIbm (binary (pos mantissa) exponent) }
    ensures unsigned { IfSome result (λ w. w < 2 ^ 31) }
    ensures number { IfSome result (λ w. SameNumber (ibm w) (binary (pos mantissa) exponent)) }
    ensures least { IfSome result
        (λ w. (a : ℕ) → 0 < mantissa → HasIbmAt a (binary (pos mantissa) exponent) → ibm_a w ≤ a) }
    ensures zero { mantissa ≡ 0 → result ≡ Some 0 }
{
    if mantissa == 0 {
        return Some(0);
    }
    let a = least_a(bit_length(mantissa), exponent);
    if a > 127 {
        return None;
    }
    let b = digits_at(mantissa, exponent, 4 * a as i32 - 280)?;
    Some((a << 24) + b)
}

/// The least A with which a number of this many bits is below `2 ^ 24` times `2 ^ (4 A - 280)`.
fn least_a(length: u32, exponent: i32) -> u32
    requires { length ≤ 64 }
    ensures enough { (exponent +ℤ pos length) ≤ℤ (pos (4 * result) -ℤ pos 256) }
    ensures least { (a : ℕ) → (exponent +ℤ pos length) ≤ℤ (pos (4 * a) -ℤ pos 256) → result ≤ a }
{
    (i64::from(exponent) + i64::from(length) + 259).max(0) as u32 / 4
}
