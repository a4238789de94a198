//! The text of a decimal.

ghost use Rattle.std.specs.Prelude.{◌≡◌, false, ◌+◌, ◌-◌, ◌^◌, ◌<◌, ◌≤◌, ◌∷◌, ◌++◌, length, take, drop, min, replicate, OnOk, OnErr, vec_len, vec_capacity};
ghost use Rattle.std.specs.Fmt.{decimal};
ghost use Rattle.grib_decimal.specs.Text.{decimal_text};

use itoa::{Buffer, write_digits};
use std::alloc::AllocError;

/// The octets of the longest text, 38 digits with a sign and a point, fit.
const LONGEST: usize = 48;

/// Appends `number / 10 ^ places`, negated if it is to be negative. The only error is no memory, and then it
/// appends nothing.
#[inline]
pub(crate) fn append_decimal(
    text: &mut Vec<u8>,
    negative: bool,
    number: u128,
    places: u32,
) -> Result<(), AllocError>
    requires number { number ≤ 2 ^ 126 }
    requires places { places ≤ 18 }
    ensures appended { OnOk result
        (text.new.items ≡ text.old.items ++ decimal_text negative number places) }
    ensures unchanged { OnErr result (text.new.items ≡ text.old.items) }
    ensures no_room { OnErr result
        (vec_capacity text.old < vec_len text.old + length (decimal_text negative number places)) }
{
    let mut buffer = [0u8; LONGEST];
    let start = write_decimal(&mut buffer, negative, number, places);
    text.extend_from_slice(&buffer[start..])
}

/// Writes `number / 10 ^ places`, negated if it is to be negative, at the end of the buffer, and answers
/// where it begins.
#[inline]
fn write_decimal(buffer: &mut [u8; LONGEST], negative: bool, number: u128, places: u32) -> usize
    requires number { number ≤ 2 ^ 126 }
    requires places { places ≤ 18 }
    ensures within { result ≤ 48 }
    ensures text { drop result buffer.new ≡ decimal_text negative number places }
{
    let start = write_number(buffer, number, places as usize);
    if negative && number != 0 {
        buffer[start - 1] = b'-';
        start - 1
    } else {
        start
    }
}

/// Writes the digits, at least one more than there are places, with a point before the last `places`
/// of them, at the end of the buffer, and answers where they begin.
#[inline]
fn write_number(buffer: &mut [u8; LONGEST], number: u128, places: usize) -> usize
    requires number { number ≤ 2 ^ 126 }
    requires places { places ≤ 18 }
    ensures room { 1 ≤ result }
    ensures within { result ≤ 48 }
    ensures text { drop result buffer.new ≡ decimal_text false number places }
{
    let digits = write_whole(buffer, number);
    let start = fill_zeros(buffer, digits, LONGEST - 1 - places);
    if places == 0 {
        start
    } else {
        set_point(buffer, start, LONGEST - places)
    }
}

/// Writes the digits of the number at the end of the buffer, and answers where they begin.
#[inline]
fn write_whole(buffer: &mut [u8; LONGEST], number: u128) -> usize
    requires { number ≤ 2 ^ 126 }
    ensures room { 10 ≤ result }
    ensures within { result ≤ 48 }
    ensures digits { drop result buffer.new ≡ decimal number }
{
    if let Ok(number) = u64::try_from(number) {
        return write_digits(number, buffer, LONGEST);
    }
    let mut digits = Buffer::new();
    let digits = digits.format(number).as_bytes();
    let start = LONGEST - digits.len();
    buffer[start..].copy_from_slice(digits);
    start
}

/// Writes zeros from `to` up to `start`, and answers the lesser of both.
#[inline]
fn fill_zeros(buffer: &mut [u8; LONGEST], start: usize, to: usize) -> usize
    requires { start ≤ 48 }
    ensures from { result ≡ min start to }
    ensures zeros { drop result buffer.new ≡ replicate (start - to) 48 ++ drop start buffer.old }
{
    let mut from = start;
    while from > to {
        from -= 1;
        buffer[from] = b'0';
    }
    from
}

/// Moves what stands from `start` up to `point` to the left by one octet, writes a point behind it, and
/// answers where it begins.
#[inline]
fn set_point(buffer: &mut [u8; LONGEST], start: usize, point: usize) -> usize
    requires room { 1 ≤ start }
    requires ordered { start ≤ point }
    requires within { point ≤ 48 }
    ensures from { result + 1 ≡ start }
    ensures text { drop result buffer.new
        ≡ take (point - start) (drop start buffer.old) ++ 46 ∷ drop point buffer.old }
{
    for place in start..point {
        buffer[place - 1] = buffer[place];
    }
    buffer[point - 1] = b'.';
    start - 1
}
