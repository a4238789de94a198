ghost use Rattle.std.specs.Prelude.{◌≡◌, ◌<◌, ◌≤◌, ◌^◌, ◌↔◌, pos, neg_ℤ, ◌≤ℤ◌, ◌<ℤ◌, nat_abs, IsTrue};
ghost use Rattle.grib_dyadic.specs.Reference.{binary, SameNumber, IsReduced};
ghost use Rattle.grib_dyadic.specs.Sign.{signed};

use std::marker::Model;

/// An exact number: a mantissa times a power of two, with a sign. The mantissa is odd, and zero
/// is `0 * 2 ^ 0` with no sign, so that equal numbers have equal fields.
#[derive(Clone, Copy, Debug, PartialEq, Eq)]
pub struct Dyadic {
    negative: bool,
    mantissa: u64,
    exponent: i32,
}

impl Model for Dyadic {
    ghost use Rattle.std.specs.Prelude.{◌≡◌, ◌%◌, ◌⊎◌, IsFalse, pos, nat_abs};
    ghost use Rattle.std.specs.Int.{is_negative};
    ghost use Rattle.grib_dyadic.specs.Reference.{Binary, binary};
    ghost use Rattle.grib_dyadic.specs.Sign.{signed};

    ghost Value = { Binary };

    ghost view = { λ d. binary (signed d.negative d.mantissa) d.exponent };

    ghost invariant = { λ d. (d.mantissa % 2 ≡ 1)
        ⊎ (IsFalse d.negative × (d.mantissa ≡ 0) × (d.exponent ≡ pos 0)) };

    ghost inverse = { λ v. record {
      negative = is_negative v.mantissa;
      mantissa = nat_abs v.mantissa;
      exponent = v.exponent;
    } };
}

impl Dyadic {
    const ZERO: Self = Dyadic {
        negative: false,
        mantissa: 0,
        exponent: 0,
    };

    /// The number `magnitude * 2 ^ exponent`, negated if it is to be negative.
    pub(crate) fn new(negative: bool, magnitude: u32, exponent: i32) -> Self
        requires low { neg_ℤ (pos 1000) ≤ℤ exponent }
        requires high { exponent ≤ℤ pos 1000 }
        ensures number { SameNumber result (binary (signed negative magnitude) exponent) }
        ensures reduced { IsReduced result }
        ensures mantissa { nat_abs result.mantissa ≤ magnitude }
        ensures exponent { nat_abs result.exponent ≤ 2 ^ 15 }
    {
        if magnitude == 0 {
            return Self::ZERO;
        }
        let zeros = magnitude.trailing_zeros();
        Dyadic {
            negative,
            mantissa: u64::from(magnitude >> zeros),
            exponent: exponent + zeros as i32,
        }
    }

    /// Whether the number is below zero.
    pub fn negative(&self) -> bool
        ensures { IsTrue result ↔ (self.now.mantissa <ℤ pos 0) }
    {
        self.negative
    }

    /// The odd factor of the number, or 0.
    pub fn mantissa(&self) -> u64
        ensures value { result ≡ nat_abs self.now.mantissa }
        ensures reduced { IsReduced self.now }
    {
        self.mantissa
    }

    /// The odd factor of the number with its sign, or 0.
    pub fn signed_mantissa(&self) -> i64
        requires { nat_abs self.now.mantissa < 2 ^ 63 }
        ensures { result ≡ self.now.mantissa }
    {
        let magnitude = self.mantissa as i64;
        if self.negative { -magnitude } else { magnitude }
    }

    /// The power of two that the mantissa is taken times.
    pub fn exponent(&self) -> i32
        ensures { result ≡ self.now.exponent }
    {
        self.exponent
    }
}
