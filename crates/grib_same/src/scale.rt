//! The numbers that give the points of a field their values.

ghost use Rattle.std.specs.Prelude.{◌≡◌, ◌≤◌, ◌<◌, ◌^◌, nat_abs};

use grib_dyadic::Dyadic;

/// The numbers that give points their values (WMO-No. 306, Volume I.2, FM 92 GRIB edition 2, Section 5, octets 12-19).
#[derive(Clone, Copy, Debug)]
pub struct ValueScale {
    /// The reference value R.
    pub(crate) reference: Dyadic,
    /// The binary scale factor E, a sign and a magnitude.
    pub(crate) e: u16,
    /// The decimal scale factor D, a sign and a magnitude.
    pub(crate) d: u16,
    ghost mantissa_small: { nat_abs reference.mantissa < 2 ^ 24 },
    ghost exponent_small: { nat_abs reference.exponent ≤ 2 ^ 15 },
}

impl ValueScale {
    /// The reference value R, and the two octets of the binary scale factor E and of the decimal scale factor D, each a sign
    /// and a magnitude.
    pub fn new(reference: Dyadic, e: u16, d: u16) -> ValueScale
        requires mantissa { nat_abs reference.mantissa < 2 ^ 24 }
        requires exponent { nat_abs reference.exponent ≤ 2 ^ 15 }
        ensures reference { result.reference ≡ reference }
        ensures e_is { result.e ≡ e }
        ensures d_is { result.d ≡ d }
    {
        ValueScale { reference, e, d }
    }
}
