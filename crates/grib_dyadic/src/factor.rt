ghost use Rattle.std.specs.Prelude.{◌≡◌, ◌<◌, ◌^◌, nat_abs};
ghost use Rattle.grib_bits.specs.Bits.{bits_of, signed};

use grib_bits::signed_of;

/// A binary or decimal scale factor, E or D, from its two octets, a sign and a magnitude (WMO-No. 306,
/// Volume I.2, FM 92 GRIB edition 2, Section 5, octets 16-19).
pub fn scale_factor(raw: u16) -> i32
    ensures value { result ≡ signed (bits_of 16 raw) }
    ensures small { nat_abs result < 2 ^ 15 }
{
    signed_of(u64::from(raw), 16) as i32
}
