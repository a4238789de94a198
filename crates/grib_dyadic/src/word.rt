ghost use Rattle.std.specs.Prelude.{◌≡◌, ◌+◌, ◌*◌, ◌^◌, ◌<◌, ◌≤◌, ◌↔◌, ◌≤ℤ◌, IsSome, IfSome, if◌then◌else◌};
ghost use Rattle.grib_dyadic.specs.Length.{IsLength};
ghost use Rattle.grib_dyadic.specs.Reference.{two_to_difference};

/// How many bits a number has from its highest 1 on.
pub(crate) fn bit_length(number: u64) -> u32
    ensures length { IsLength result number }
    ensures at_most { result ≤ 64 }
{
    u64::BITS - number.leading_zeros()
}

/// The number `mantissa * 2 ^ exponent` as a multiple of `2 ^ place`, if it is one by less than
/// `2 ^ 24`.
pub(crate) fn digits_at(mantissa: u64, exponent: i32, place: i32) -> Option<u32>
    requires { 0 < mantissa }
    ensures exact { IsSome result
        ↔ ((place ≤ℤ exponent) × (mantissa * two_to_difference exponent place < 2 ^ 24)) }
    ensures value { IfSome result (λ d. d ≡ mantissa * two_to_difference exponent place) }
{
    let shift = i64::from(exponent) - i64::from(place);
    if shift < 0 || shift > 24 - i64::from(bit_length(mantissa)) {
        return None;
    }
    Some((mantissa << shift) as u32)
}

/// The word with this sign bit before the 31 bits of the magnitude.
pub(crate) fn signed_word(negative: bool, magnitude: u32) -> u32
    requires { magnitude < 2 ^ 31 }
    ensures { result ≡ (if negative then 1 else 0) * 2 ^ 31 + magnitude }
{
    (u32::from(negative) << 31) | magnitude
}
