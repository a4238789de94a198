//! The binary digits of a number.

ghost use Rattle.std.specs.Prelude.{◌≡◌, ◌<◌, ◌≤◌, ◌^◌};
ghost use Rattle.grib_packing.specs.Groupings.{digits};

/// The number of binary digits of a number, 0 for 0.
#[inline]
pub fn bit_length(number: u64) -> u32
    ensures is { result ≡ digits number }
    ensures most { result ≤ 64 }
    ensures few { number < 2 ^ 32 → result ≤ 32 }
{
    u64::BITS - number.leading_zeros()
}
