//! The lines of `dump` that hold a point.

ghost use Rattle.std.specs.Prelude.{◌≡◌, ◌+◌, ◌<◌, ◌≤◌, [], ◌∷◌, ◌++◌, length, drop, vec_len, vec_capacity, IfOk, OnOk, OnErr};
ghost use Rattle.std.specs.Fmt.{signed_decimal};
ghost use Rattle.grib_text.specs.Lines as lines;

use grib_packing::Point;
use itoa::write_digits;
use std::alloc::{AllocError, Global};

/// The octets of the longest line: 10 of the place, 20 of the number, a space and a newline.
const LONGEST: usize = 32;

/// The line of the point at a place of the grid, counted from 1. The only error is that there is no memory.
pub fn point_line(alloc: Global, place: u32, point: &Point) -> Result<Vec<u8>, AllocError>
    ensures { IfOk result (λ line. line.items ≡ lines.point_line place point.now) }
{
    let mut line = Vec::new(alloc);
    append_point_line(&mut line, place, point)?;
    Ok(line)
}

/// Appends the line of the point at a place of the grid, counted from 1. It takes memory only where
/// the `Vec` has no room, and where there is none it appends nothing.
pub fn append_point_line(line: &mut Vec<u8>, place: u32, point: &Point) -> Result<(), AllocError>
    ensures appended { OnOk result
        (line.new.items ≡ line.old.items ++ lines.point_line place point.now) }
    ensures unchanged { OnErr result (line.new.items ≡ line.old.items) }
    ensures no_room { OnErr result
        (vec_capacity line.old < vec_len line.old + length (lines.point_line place point.now)) }
{
    let mut buffer = [0u8; LONGEST];
    let start = write_line(&mut buffer, place, point);
    line.extend_from_slice(&buffer[start..])
}

/// Writes the line at the end of the buffer, and answers where it begins.
fn write_line(buffer: &mut [u8; LONGEST], place: u32, point: &Point) -> usize
    ensures within { result ≤ 32 }
    ensures line { drop result buffer.new ≡ lines.point_line place point.now }
{
    let end = write_point(buffer, point);
    write_digits(u64::from(place), buffer, end)
}

/// Writes a space, the text of the point and a newline at the end of the buffer, and answers where
/// they begin.
fn write_point(buffer: &mut [u8; LONGEST], point: &Point) -> usize
    ensures room { 10 ≤ result }
    ensures within { result ≤ 32 }
    ensures text { drop result buffer.new ≡ 32 ∷ (lines.point_text point.now ++ 10 ∷ []) }
{
    match *point {
        Point::Scaled(number) => write_number(buffer, number),
        Point::Missing => write_text(buffer, b" missing\n"),
        Point::Missing2 => write_text(buffer, b" missing2\n"),
    }
}

/// Writes a space, the number and a newline at the end of the buffer, and answers where they begin.
fn write_number(buffer: &mut [u8; LONGEST], number: i64) -> usize
    ensures room { 10 ≤ result }
    ensures within { result ≤ 32 }
    ensures text { drop result buffer.new ≡ 32 ∷ (signed_decimal number ++ 10 ∷ []) }
{
    buffer[LONGEST - 1] = b'\n';
    let start = write_signed(buffer, number, LONGEST - 1);
    buffer[start - 1] = b' ';
    start - 1
}

/// Writes the number so that it ends before place `end` of the buffer, and answers where it begins.
fn write_signed(buffer: &mut [u8; LONGEST], number: i64, end: usize) -> usize
    requires room { 20 ≤ end }
    requires within { end ≤ 32 }
    ensures room { end ≤ result + 20 }
    ensures within { result ≤ end }
    ensures text { drop result buffer.new ≡ signed_decimal number ++ drop end buffer.old }
{
    let start = write_digits(number.unsigned_abs(), buffer, end);
    if number >= 0 {
        return start;
    }
    buffer[start - 1] = b'-';
    start - 1
}

/// Writes the text at the end of the buffer, and answers where it begins.
fn write_text(buffer: &mut [u8; LONGEST], text: &[u8]) -> usize
    requires { length text.now ≤ 22 }
    ensures room { 10 ≤ result }
    ensures within { result ≤ 32 }
    ensures text { drop result buffer.new ≡ text.now }
{
    let start = LONGEST - text.len();
    buffer[start..].copy_from_slice(text);
    start
}
