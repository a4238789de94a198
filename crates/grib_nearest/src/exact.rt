//! The words of exact values.

ghost use Rattle.std.specs.Prelude.{◌≡◌, ◌≢◌, ◌+◌, ◌*◌, ◌^◌, ◌<◌, ◌≤◌, ◌+ℤ◌, ◌-ℤ◌, ◌*ℤ◌, pos, neg_ℤ, nat_abs, IfOk, IfSome};
ghost use Rattle.std.specs.Int.{is_negative};
ghost use Rattle.grib_decimal.specs.Decimal.{or_0};
ghost use Rattle.grib_long.specs.Digits.{value, size};
ghost use Rattle.grib_nearest.specs.Formats.{format_of};
ghost use Rattle.grib_nearest.specs.Leading.{IsLeading};
ghost use Rattle.grib_nearest.specs.Nearest.{nearest_word};
ghost use Rattle.grib_nearest.specs.Nearest as definitions;
ghost use Rattle.grib_nearest.specs.Numbers.{number_of, word_of};

use crate::format::Format;
use crate::fraction::word;
use crate::leading::Leading;
use crate::number::Number;
use grib_long::Long;
use std::alloc::{AllocError, Global};

/// The word of the format that is nearest to `number * 2 ^ exponent * 10 ^ up / 10 ^ down`, ties to even, rounded once: an
/// infinity beyond the greatest numbers, and a number of 0 has the word of +0. It takes no memory where the number, times
/// `10 ^ up`, has 126 bits and `down` is at most 19.
///
/// # Errors
///
/// There is no memory.
#[inline]
pub fn exact_word(
    alloc: Global,
    format: Format,
    number: Number,
    exponent: i32,
    up: u32,
    down: u32,
) -> Result<u64, AllocError>
    requires exponent { nat_abs exponent ≤ 2 ^ 17 }
    requires up { up ≤ 2 ^ 15 }
    requires down { down ≤ 2 ^ 15 }
    ensures { IfOk result (λ w. w ≡ word_of (format_of format) (number_of number) exponent up down) }
{
    if let Number::Near(near) = number
        && down <= 19
        && let Some(raised) = raised(near, up)
    {
        return Ok(word(format, raised, exponent, 10u128.pow(down)));
    }
    wide_word(alloc, format, number, exponent, up, down)
}

/// The number times `10 ^ tens`, if it is known to have 126 bits.
#[inline]
fn raised(number: i128, tens: u32) -> Option<i128>
    ensures value { IfSome result (λ n. n ≡ number *ℤ pos (10 ^ tens)) }
    ensures few { IfSome result (λ n. nat_abs n < 2 ^ 126) }
{
    if tens == 0 && number.unsigned_abs() < 1 << 126 {
        return Some(number);
    }
    if tens > 19 || number.unsigned_abs() >= 1 << 62 {
        return None;
    }
    Some(number * i128::from(10u64.pow(tens)))
}

/// The word of the format that is nearest, by numbers of any length.
fn wide_word(
    alloc: Global,
    format: Format,
    number: Number,
    exponent: i32,
    up: u32,
    down: u32,
) -> Result<u64, AllocError>
    requires exponent { nat_abs exponent ≤ 2 ^ 17 }
    requires up { up ≤ 2 ^ 15 }
    requires down { down ≤ 2 ^ 15 }
    ensures { IfOk result (λ w. w ≡ word_of (format_of format) (number_of number) exponent up down) }
{
    if number.is_zero() {
        return Ok(0);
    }
    let long = number.magnitude(alloc)?;
    let word = long_leading(alloc, long, exponent, up, down)?.nearest(format);
    if number.is_negative() {
        Ok(word + format.sign())
    } else {
        Ok(word)
    }
}

/// The first digits of `number * 2 ^ exponent * 10 ^ up / 10 ^ down`.
fn long_leading(
    alloc: Global,
    number: Long,
    exponent: i32,
    up: u32,
    down: u32,
) -> Result<Leading, AllocError>
    requires some { 0 < value number }
    requires size { size number ≤ 2 ^ 17 + 6 }
    requires exponent { nat_abs exponent ≤ 2 ^ 17 }
    requires up { up ≤ 2 ^ 15 }
    requires down { down ≤ 2 ^ 15 }
    ensures { IfOk result (λ l. IsLeading (value number * (2 ^ or_0 exponent * 10 ^ up)) (2 ^ or_0 (neg_ℤ exponent) * 10 ^ down)
        l.steps l.more l.exponent) }
{
    let zeros = down / 8 + 4;
    let shifted = number.times_tens(alloc, up)?.shifted(zeros)?;
    let quotient = shifted.by_tens(alloc, down)?;
    let first = quotient.whole.leading();
    Ok(Leading {
        steps: first.steps,
        more: quotient.more || first.more,
        exponent: moved(exponent, first.exponent, 32 * zeros),
    })
}

/// The exponent with so much added and taken away.
fn moved(exponent: i32, up: u32, down: u32) -> i32
    requires exponent { nat_abs exponent ≤ 2 ^ 17 }
    requires up { up ≤ 2 ^ 26 }
    requires down { down ≤ 2 ^ 26 }
    ensures { result ≡ exponent +ℤ pos up -ℤ pos down }
{
    exponent + up as i32 - down as i32
}
