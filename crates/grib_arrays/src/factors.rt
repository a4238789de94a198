//! The scale factors of a field.

ghost use Rattle.std.specs.Prelude.{◌≡◌, ◌≤◌, ◌<◌, ◌^◌, nat_abs};
ghost use Rattle.grib_bits.specs.Bits.{bits_of, signed};
ghost use Rattle.grib_decimal.specs.Decimal.{or_0};
ghost use Rattle.grib_arrays.specs.Scale.{IsScaleOf};

use crate::scale::ArrayScale;
use grib_dyadic::{Dyadic, scale_factor};
use grib_nearest::Format;

impl ArrayScale {
    /// For the reference value R and the two octets of the binary scale factor E and of the decimal scale factor D, each a
    /// sign and a magnitude (WMO-No. 306, Volume I.2, FM 92 GRIB edition 2, Section 5, octets 16-19).
    pub fn of(format: Format, reference: &Dyadic, e: u16, d: u16) -> ArrayScale
        requires mantissa { nat_abs reference.now.mantissa < 2 ^ 24 }
        requires exponent { nat_abs reference.now.exponent ≤ 2 ^ 15 }
        ensures { IsScaleOf result format reference.now (signed (bits_of 16 e)) (signed (bits_of 16 d)) }
    {
        let d = scale_factor(d);
        ArrayScale {
            format,
            mantissa: reference.signed_mantissa(),
            exponent: reference.exponent(),
            e: scale_factor(e),
            up: or_zero(-d),
            down: or_zero(d),
        }
    }
}

/// The number, and 0 for one below 0.
fn or_zero(number: i32) -> u32
    requires { nat_abs number ≤ 2 ^ 15 }
    ensures value { result ≡ or_0 number }
    ensures small { result ≤ 2 ^ 15 }
{
    number.max(0) as u32
}
