//! The value of a grid point.

ghost use Rattle.std.specs.Prelude.{◌≡◌, ◌^◌, ◌<◌, ◌≤◌, ◌↔◌, nat_abs, IsTrue, IfOk, Err, string_bytes};
ghost use Rattle.grib_bits.specs.Bits.{bits_of, signed};
ghost use Rattle.grib_dyadic.specs.Value.{value_of};
ghost use Rattle.grib_decimal.specs.Decimal.{decimal_text as text_of, is_too_large};
ghost use Rattle.grib_decimal.specs.declared.fault.DecimalFault.TheVariants as DecimalFault;

use grib_arrays::nearest_f64;
use grib_decimal::{DecimalFault, decimal_text};
use grib_dyadic::Dyadic;
use std::alloc::{AllocError, Global};

/// The exact value of a grid point: (R + X * 2^E) / 10^D, with the reference value R, the binary scale factor E and
/// the decimal scale factor D of its field, and its own scaled integer X (WMO-No. 306, Volume I.2, FM 92 GRIB,
/// Section 7 and data representation template 5.0).
#[derive(Clone, Copy, Debug)]
pub struct Exact {
    reference: Dyadic,
    /// E and D as they stand: a sign and a magnitude.
    binary: u16,
    decimal: u16,
    scaled: i64,
    ghost small: { nat_abs reference.mantissa < 2 ^ 24 },
    ghost near: { nat_abs reference.exponent ≤ 2 ^ 15 },
}

impl Exact {
    ghost use Rattle.grib_arrays.specs.Numbers as numbers;
    ghost use Rattle.grib.specs.Exact.{exact_of};

    /// The value of the point with this scaled integer in a field of this reference value and these scale factors.
    pub(crate) fn of(reference: &Dyadic, binary: u16, decimal: u16, scaled: i64) -> Exact
        requires small { nat_abs reference.now.mantissa < 2 ^ 24 }
        requires near { nat_abs reference.now.exponent ≤ 2 ^ 15 }
        ensures { exact_of result ≡ value_of reference.now (signed (bits_of 16 binary)) (signed (bits_of 16 decimal)) scaled }
    {
        Exact {
            reference: *reference,
            binary,
            decimal,
            scaled,
        }
    }

    /// The value as a decimal with this many places, at most 18: rounded once, half to even.
    ///
    /// # Errors
    ///
    /// The value is too large for a text, or there is no memory.
    pub fn decimal(&self, alloc: Global, places: u32) -> Result<String, DecimalFault>
        requires { places ≤ 18 }
        ensures text { IfOk result (λ text. string_bytes text ≡ text_of (exact_of self.now) places) }
        ensures range { (result ≡ Err DecimalFault.Range) ↔ IsTrue (is_too_large (exact_of self.now) places) }
    {
        let text = decimal_text(
            alloc,
            &self.reference,
            self.binary,
            self.decimal,
            self.scaled,
            places,
        )?;
        let Ok(text) = String::from_utf8(text) else {
            unreachable!();
        };
        Ok(text)
    }

    /// The number of IEEE 754 binary64 that is nearest to the value, ties to even, rounded once: an infinity beyond the
    /// greatest numbers.
    ///
    /// # Errors
    ///
    /// There is no memory. A value of few digits takes none.
    pub fn to_f64(&self, alloc: Global) -> Result<f64, AllocError>
        ensures { IfOk result (λ number. number ≡ numbers.nearest_f64 (exact_of self.now)) }
    {
        nearest_f64(
            alloc,
            &self.reference,
            self.binary,
            self.decimal,
            self.scaled,
        )
    }
}

/// What a grid point holds.
#[derive(Clone, Copy, Debug)]
pub enum Value {
    /// A number.
    Number(Exact),
    /// No number: left out by the bitmap, or marked as missing.
    Missing,
}

impl Value {
    ghost use Rattle.grib.specs.Exact.{nearest_number};
    ghost use Rattle.grib.specs.Points.{number_of};

    /// The number of IEEE 754 binary64 that is nearest to the value, ties to even, rounded once; `None` where it is
    /// missing.
    ///
    /// # Errors
    ///
    /// There is no memory.
    pub fn to_f64(&self, alloc: Global) -> Result<Option<f64>, AllocError>
        ensures { IfOk result (λ number. number ≡ nearest_number (number_of self.now)) }
    {
        match self {
            Value::Number(exact) => Ok(Some(exact.to_f64(alloc)?)),
            Value::Missing => Ok(None),
        }
    }
}
