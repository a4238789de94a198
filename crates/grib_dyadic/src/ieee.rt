ghost use Rattle.std.specs.Prelude.{◌≡◌, ℕ, ◌+◌, ◌^◌, ◌<◌, ◌≤◌, ◌⊎◌, ◌↔◌, ◌==◌, pos, ◌+ℤ◌, nat_abs, if◌then◌else◌, IsOk, IsErr, IfOk, IsSome, IfSome, IfNone};
ghost use Rattle.std.specs.Int.{int_max};
ghost use Rattle.grib_bits.specs.Binary32.{ieee_exponent};
ghost use Rattle.grib_dyadic.specs.Reference.{binary, ieee, IsFinite, SameNumber, IsReduced, reduced, HasIeee};

use crate::dyadic::Dyadic;
use crate::word::{bit_length, digits_at, signed_word};

/// The word is an infinity or no number.
#[derive(Clone, Copy, Debug, PartialEq, Eq)]
pub struct NotFinite;

impl Dyadic {
    /// The number that a binary32 word stands for. Minus zero is zero.
    pub fn from_ieee(word: u32) -> Result<Self, NotFinite>
        ensures refused { IsErr result ↔ (ieee_exponent word ≡ 255) }
        ensures finite { IsOk result ↔ IsFinite word }
        ensures number { IfOk result (λ d. SameNumber d (ieee word)) }
        ensures reduced { IfOk result (λ d. IsReduced d) }
        ensures value { IfOk result (λ d. d ≡ reduced (ieee word)) }
        ensures mantissa { IfOk result (λ d. nat_abs d.mantissa < 2 ^ 24) }
        ensures exponent { IfOk result (λ d. nat_abs d.exponent ≤ 2 ^ 15) }
    {
        let field = (word >> 23) & 0xff;
        if field == 255 {
            return Err(NotFinite);
        }
        let significand = significand(field, word & 0x7f_ffff);
        Ok(Dyadic::new(word >> 31 == 1, significand, field.max(1) as i32 - 150))
    }

    /// The finite binary32 word that stands for the number, if there is one.
    pub fn to_ieee(&self) -> Option<u32>
        ensures exact { IsSome result ↔ HasIeee self.now }
        ensures word { IfSome result (λ w. w < 2 ^ 32) }
        ensures finite { IfSome result (λ w. IsFinite w) }
        ensures number { IfSome result (λ w. SameNumber (ieee w) self.now) }

        // No other word stands for the number, but for minus zero.
        ensures only { IfSome result
            (λ w. (x : ℕ) → x < 2 ^ 32 → IsFinite x → SameNumber (ieee x) self.now
            → (x ≡ w) ⊎ ((self.now.mantissa ≡ pos 0) × (w ≡ 0))) }
        ensures no_word { IfNone result
            ((x : ℕ) → x < 2 ^ 32 → IsFinite x → ¬ (SameNumber (ieee x) self.now)) }
        ensures zero { self.now.mantissa ≡ pos 0 → result ≡ Some 0 }
    {
        let magnitude = ieee_magnitude(self.mantissa(), self.exponent())?;
        Some(signed_word(self.negative(), magnitude))
    }
}

/// The fraction with the 1 before it that a normal number has.
fn significand(exponent: u32, fraction: u32) -> u32
    requires { fraction < 2 ^ 23 }
    ensures { result ≡ (if exponent == 0 then fraction else (2 ^ 23 + fraction)) }
{
    if exponent == 0 {
        fraction
    } else {
        fraction + (1 << 23)
    }
}

/// The binary32 word, with no sign, of `mantissa * 2 ^ exponent`.
fn ieee_magnitude(mantissa: u64, exponent: i32) -> Option<u32>
    requires { IsReduced (binary (pos mantissa) exponent) }
    ensures exact { IsSome result ↔ HasIeee (binary (pos mantissa) exponent) }
    ensures unsigned { IfSome result (λ w. w < 2 ^ 31) }
    ensures finite { IfSome result (λ w. IsFinite w) }
    ensures number { IfSome result (λ w. SameNumber (ieee w) (binary (pos mantissa) exponent)) }
    ensures zero { mantissa ≡ 0 → result ≡ Some 0 }
{
    if mantissa == 0 {
        return Some(0);
    }
    let place = ieee_place(bit_length(mantissa), exponent);
    if place > 253 {
        return None;
    }
    let digits = digits_at(mantissa, exponent, place as i32 - 149)?;
    Some((place << 23) + digits)
}

/// Where the last digit of a number of this many bits stands in its word: at `2 ^ (place - 149)`.
fn ieee_place(length: u32, exponent: i32) -> u32
    requires { length ≤ 64 }
    ensures { pos result ≡ int_max (exponent +ℤ pos length +ℤ pos 125) (pos 0) }
{
    (i64::from(exponent) + i64::from(length) + 125).max(0) as u32
}
