//! The decimals of a field.

ghost use Rattle.std.specs.Prelude.{◌≡◌, ◌<◌, ◌≤◌, ◌^◌, ◌++◌, ◌+◌, ◌↔◌, nat_abs, length, IsTrue, IfOk, OnOk, OnErr, vec_len, vec_capacity};
ghost use Rattle.grib_bits.specs.Bits.{bits_of, signed};
ghost use Rattle.grib_dyadic.specs.Value.{value_of};
ghost use Rattle.grib_decimal.specs.Decimal.{decimal_text as text_of, is_too_large, value_at, scale};
ghost use Rattle.grib_decimal.specs.Rounded.{IsRounding};

use crate::fault::DecimalFault;
use crate::power::{power, shifted};
use crate::prepared::quick_of;
use crate::quick::Quick;
use crate::rounded::Rounded;
use crate::text::append_decimal;
use crate::wide::{number, round_wide};
use grib_dyadic::{Dyadic, scale_factor};
use std::alloc::Global;
use std::marker::Model;

/// How the points of a field are printed: its reference value R, its scale factors E and D, and this many places.
#[derive(Debug, Drop)]
pub struct DecimalScale {
    reference: Dyadic,
    e: i64,
    d: i64,
    places: u32,
    /// R and E as multiples of a power of two: `base * 2 ^ t` and `2 ^ shift * 2 ^ t`.
    base: Option<i128>,
    shift: i64,
    /// `2 ^ t * 10 ^ (places - D)` as a fraction.
    factor: Option<u128>,
    divisor: Option<u128>,
    quick: Option<Quick>,
}

impl Model for DecimalScale {
    ghost use Rattle.grib_decimal.specs.Decimal.{Scale};
    ghost use Rattle.grib_decimal.specs.Parts.{IsPrepared};

    ghost Value = { Scale };

    ghost view = { λ s. record { reference = s.reference; e = s.e; d = s.d; places = s.places } };

    ghost invariant = { λ s. IsPrepared s.reference s.e s.d s.places s.base s.shift s.factor s.divisor s.quick };
}

impl DecimalScale {
    /// For the reference value R, the two octets of the binary scale factor E and of the decimal scale factor D,
    /// each a sign and a magnitude (WMO-No. 306, Volume I.2, FM 92 GRIB edition 2, Section 5, octets 16-19), and
    /// the number of places.
    pub fn of(reference: &Dyadic, e: u16, d: u16, places: u32) -> DecimalScale
        requires mantissa { nat_abs reference.now.mantissa < 2 ^ 24 }
        requires places { places ≤ 18 }
        ensures { result ≡ scale reference.now (signed (bits_of 16 e)) (signed (bits_of 16 d)) places }
    {
        let e = i64::from(scale_factor(e));
        let d = i64::from(scale_factor(d));
        let exponent = i64::from(reference.exponent());
        let unit = exponent.min(e);
        let base = shifted(reference.signed_mantissa(), exponent - unit);
        let shift = e - unit;
        let factor = power(unit, i64::from(places) - d);
        let divisor = power(-unit, d - i64::from(places));
        DecimalScale {
            reference: *reference,
            e,
            d,
            places,
            base,
            shift,
            factor,
            divisor,
            quick: quick_of(base, shift, factor, divisor),
        }
    }

    /// Appends the text of the point with the scaled number X: its exact value, rounded once, half to even. It takes
    /// memory only where the `Vec` has no room. Where there is none, or the value is too large, it appends nothing.
    #[inline]
    pub fn append(&self, text: &mut Vec<u8>, x: i64) -> Result<(), DecimalFault>
        ensures appended { OnOk result
            (text.new.items ≡ text.old.items ++ text_of (value_at self.now x) self.now.places) }
        ensures unchanged { OnErr result (text.new.items ≡ text.old.items) }
        ensures range { (result ≡ Err DecimalFault.Range)
            ↔ IsTrue (is_too_large (value_at self.now x) self.now.places) }
        ensures no_room { result ≡ Err DecimalFault.Memory
            → vec_capacity text.old < vec_len text.old + length (text_of (value_at self.now x) self.now.places) }
    {
        let Some(rounded) = self.rounded(x) else {
            return Err(DecimalFault::Range);
        };
        match append_decimal(text, rounded.negative, rounded.number, self.places) {
            Ok(()) => Ok(()),
            Err(_) => Err(DecimalFault::Memory),
        }
    }

    /// Whether the value of the point with the scaled number X is too large for a text.
    pub(crate) fn is_too_large(&self, x: i64) -> bool
        ensures { result ≡ is_too_large (value_at self.now x) self.now.places }
    {
        self.rounded(x).is_none()
    }

    /// The value of the point with the scaled number X times `10 ^ places`, rounded, unless it is too large.
    #[inline]
    fn rounded(&self, x: i64) -> Option<Rounded>
        ensures { IsRounding (value_at self.now x) self.now.places result }
    {
        if let Some(quick) = &self.quick
            && let Some(numerator) = quick.numerator(x)
        {
            return Some(quick.rounded(numerator));
        }
        round_wide(number(self.base, self.shift, x), self.factor, self.divisor)
    }
}

/// The value of the point with the scaled number X as text, with this many places: the exact value, rounded once, half
/// to even. The two octets of the scale factors E and D are each a sign and a magnitude.
pub fn decimal_text(
    alloc: Global,
    reference: &Dyadic,
    e: u16,
    d: u16,
    x: i64,
    places: u32,
) -> Result<Vec<u8>, DecimalFault>
    requires mantissa { nat_abs reference.now.mantissa < 2 ^ 24 }
    requires places { places ≤ 18 }
    ensures text { IfOk result (λ text. text.items
        ≡ text_of (value_of reference.now (signed (bits_of 16 e)) (signed (bits_of 16 d)) x) places) }
    ensures range { (result ≡ Err DecimalFault.Range)
        ↔ IsTrue (is_too_large (value_of reference.now (signed (bits_of 16 e)) (signed (bits_of 16 d)) x) places) }
{
    let mut text = Vec::new(alloc);
    DecimalScale::of(reference, e, d, places).append(&mut text, x)?;
    Ok(text)
}
