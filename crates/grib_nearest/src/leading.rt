//! The word of a number from its first digits.

ghost use Rattle.std.specs.Prelude.{◌≡◌, ℕ, ◌+◌, ◌*◌, ◌%◌, ◌^◌, ◌<◌, ◌≤◌, true, false, pos, ◌+ℤ◌, ◌-ℤ◌, ◌≤ℤ◌, min};
ghost use Rattle.std.specs.Int.{int_max};
ghost use Rattle.std.specs.Float.Ieee.{prec, low};
ghost use Rattle.grib_dyadic.specs.Length.{IsLength};
ghost use Rattle.grib_nearest.specs.Formats.{format_of};
ghost use Rattle.grib_nearest.specs.Leading.{IsLeading};
ghost use Rattle.grib_nearest.specs.Nearest.{nearest_word, field_unit};
ghost use Rattle.grib_nearest.specs.Nearest as definitions;

use crate::format::Format;

/// The first digits of a number: it is `steps * 2 ^ exponent`, and less than a step more where there is more.
#[derive(Clone, Copy, Debug)]
pub(crate) struct Leading {
    pub(crate) steps: u128,
    pub(crate) more: bool,
    pub(crate) exponent: i32,
    ghost many: { 2 ^ 60 ≤ steps },
    ghost few: { steps < 2 ^ 126 },
}

impl Leading {
    /// The word of the format, with no sign, that is nearest to the number.
    #[inline]
    pub(crate) fn nearest(self, format: Format) -> u64
        ensures nearest { (n d : ℕ) → 0 < d → IsLeading n d self.steps self.more self.exponent
            → result ≡ nearest_word (format_of format) n d }
        ensures within { result ≤ definitions.infinity (format_of format) }
    {
        let field = field_of(format, bit_length(self.steps), self.exponent);
        let cut = cut_of(format, field, self.exponent);
        if cut > 127 {
            return 0;
        }
        let half = 1 << (cut - 1);
        let kept = rounded(self.steps >> cut, self.steps % (2 * half), half, self.more);
        word_of(format, field, kept)
    }
}

/// How many digits a number has.
#[inline]
fn bit_length(number: u128) -> u32
    ensures length { IsLength result number }
    ensures at_most { result ≤ 128 }
{
    u128::BITS - number.leading_zeros()
}

/// The exponent field for a number of so many digits, the last of which counts `2 ^ exponent`.
#[inline]
fn field_of(format: Format, length: u32, exponent: i32) -> u64
    requires { length ≤ 128 }
    ensures { pos result ≡ int_max (exponent +ℤ pos length +ℤ pos (low (format_of format)) -ℤ pos (prec (format_of format))) (pos 0) }
{
    let lowest = i64::from(format.lowest());
    let digits = i64::from(format.digits());
    (i64::from(exponent) + i64::from(length) + lowest - digits).max(0) as u64
}

/// How many of the digits are dropped.
#[inline]
fn cut_of(format: Format, field: u64, exponent: i32) -> u64
    requires enough { (exponent +ℤ pos (low (format_of format))) ≤ℤ pos field }
    requires small { field < 2 ^ 62 }
    ensures { pos result ≡ pos field -ℤ (exponent +ℤ pos (low (format_of format))) }
{
    (field as i64 - (i64::from(exponent) + i64::from(format.lowest()))) as u64
}

/// What is kept, or one more, by the rest and half a step of what is kept: to the nearest, half to even.
#[inline]
fn rounded(kept: u128, rest: u128, half: u128, more: bool) -> u128
    requires { kept < 2 ^ 126 }
    ensures below { rest < half → result ≡ kept }
    ensures above { half < rest → result ≡ kept + 1 }
    ensures more { rest ≡ half → more ≡ true → result ≡ kept + 1 }
    ensures tie { rest ≡ half → more ≡ false → result ≡ kept + kept % 2 }
{
    if rest < half {
        kept
    } else if half < rest || more {
        kept + 1
    } else {
        kept + kept % 2
    }
}

/// The word with this exponent field, which takes in what the significand has above its fraction. There is none above
/// infinity.
#[inline]
fn word_of(format: Format, field: u64, significand: u128) -> u64
    requires significand { significand ≤ 2 ^ 126 }
    ensures { result ≡ min (field * field_unit (format_of format) + significand) (definitions.infinity (format_of format)) }
{
    let word = (u128::from(field) << (format.digits() - 1)) + significand;
    word.min(u128::from(format.infinity())) as u64
}
