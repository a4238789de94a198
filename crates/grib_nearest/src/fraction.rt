//! The words of fractions in 128 bits.

ghost use Rattle.std.specs.Prelude.{◌≡◌, ◌*◌, ◌^◌, ◌<◌, ◌≤◌, nat_abs, true};
ghost use Rattle.std.specs.Float.Ieee as Ieee;
ghost use Rattle.std.specs.Int.{is_negative};
ghost use Rattle.grib_nearest.specs.Formats.{format_of};
ghost use Rattle.grib_nearest.specs.Leading.{IsLeading};
ghost use Rattle.grib_nearest.specs.Nearest.{nearest_word};
ghost use Rattle.grib_nearest.specs.Fractions.{numerator_at, denominator_at};
ghost use Rattle.grib_nearest.specs.Values.{signed_word};

use crate::format::Format;
use crate::leading::Leading;

/// The word of IEEE 754 binary64 that is nearest to `number * 2 ^ exponent / divisor`, ties to even. A number of 0 has the
/// word of +0. It takes no memory.
#[inline]
pub fn binary64(number: i128, exponent: i32, divisor: u128) -> u64
    requires few { nat_abs number < 2 ^ 126 }
    requires exponent { nat_abs exponent ≤ 2 ^ 20 }
    requires some { 0 < divisor }
    requires small { divisor ≤ 10 ^ 19 }
    ensures { result ≡ signed_word Ieee.binary64 (is_negative number) (nearest_word Ieee.binary64
        (numerator_at exponent (nat_abs number)) (denominator_at exponent divisor)) }
{
    word(Format::Binary64, number, exponent, divisor)
}

/// The word of IEEE 754 binary32 that is nearest to `number * 2 ^ exponent / divisor`, ties to even, rounded once. A number
/// of 0 has the word of +0. It takes no memory.
#[inline]
pub fn binary32(number: i128, exponent: i32, divisor: u128) -> u32
    requires few { nat_abs number < 2 ^ 126 }
    requires exponent { nat_abs exponent ≤ 2 ^ 20 }
    requires some { 0 < divisor }
    requires small { divisor ≤ 10 ^ 19 }
    ensures { result ≡ signed_word Ieee.binary32 (is_negative number) (nearest_word Ieee.binary32
        (numerator_at exponent (nat_abs number)) (denominator_at exponent divisor)) }
{
    word(Format::Binary32, number, exponent, divisor) as u32
}

/// The word of the format that is nearest to `number * 2 ^ exponent / divisor`.
#[inline]
pub(crate) fn word(format: Format, number: i128, exponent: i32, divisor: u128) -> u64
    requires few { nat_abs number < 2 ^ 126 }
    requires exponent { nat_abs exponent ≤ 2 ^ 20 }
    requires some { 0 < divisor }
    requires small { divisor ≤ 10 ^ 19 }
    ensures within { result < signed_word (format_of format) true 0 * 2 }
    ensures word { result ≡ signed_word (format_of format) (is_negative number) (nearest_word (format_of format)
        (numerator_at exponent (nat_abs number)) (denominator_at exponent divisor)) }
{
    if number == 0 {
        return 0;
    }
    let word = leading(number.unsigned_abs(), divisor, exponent).nearest(format);
    if number < 0 {
        word + format.sign()
    } else {
        word
    }
}

/// The first digits of `number * 2 ^ exponent / divisor`.
#[inline]
fn leading(number: u128, divisor: u128, exponent: i32) -> Leading
    requires some { 0 < number }
    requires few { number < 2 ^ 126 }
    requires divisor { 0 < divisor }
    requires small { divisor ≤ 10 ^ 19 }
    requires exponent { nat_abs exponent ≤ 2 ^ 20 }
    ensures { IsLeading (numerator_at exponent number) (denominator_at exponent divisor) result.steps result.more result.exponent }
{
    let zeros = number.leading_zeros() - 2;
    let shifted = number << zeros;
    Leading {
        steps: shifted / divisor,
        more: shifted % divisor != 0,
        exponent: exponent - zeros as i32,
    }
}
