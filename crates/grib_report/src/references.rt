//! The reference value of edition 2.

ghost use Rattle.std.specs.Prelude.{◌≡◌, ◌^◌, ◌<◌, ◌≤◌, nat_abs};
ghost use Rattle.grib_bits.specs.Binary32.{ieee_exponent};
ghost use Rattle.grib_dyadic.specs.Reference.{ieee, reduced};

use grib_dyadic::Dyadic;

/// The reference value of a binary32 word that is finite, as that of each message that passes is.
pub fn ieee_reference(word: u32) -> Dyadic
    requires finite { ieee_exponent word < 255 }
    ensures value { result ≡ reduced (ieee word) }
    ensures mantissa { nat_abs result.mantissa < 2 ^ 24 }
    ensures exponent { nat_abs result.exponent ≤ 2 ^ 15 }
{
    Dyadic::from_ieee(word).unwrap()
}
