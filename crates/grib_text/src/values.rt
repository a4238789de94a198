//! The lines of `dump` that hold a point with its value as a decimal.

ghost use Rattle.std.specs.Prelude.{◌≡◌, ◌≤◌, ◌^◌, false, [], ◌∷◌, ◌++◌, codes, take, vec_len, nat_abs, OnOk, OnErr};
ghost use Rattle.std.specs.Fmt.{decimal};
ghost use Rattle.grib_decimal.specs.Decimal.{decimal_text, is_too_large, value_at};
ghost use Rattle.grib_decimal.specs.Range.{is_point_too_large};
ghost use Rattle.grib_text.specs.Values as lines;

use crate::points::append_point_line;
use grib_decimal::{DecimalFault, DecimalScale};
use grib_packing::Point;
use itoa::write_digits;
use std::alloc::AllocError;

/// The octets of the longest place, and a space.
const LONGEST: usize = 24;

/// Appends the line of the point at a place of the grid, counted from 1, with its value as a decimal, which is
/// not too large for a text. Where there is no memory it appends nothing.
pub fn append_value_line(
    line: &mut Vec<u8>,
    place: u32,
    point: &Point,
    scale: &DecimalScale,
) -> Result<(), AllocError>
    requires fits { is_point_too_large scale.now point.now ≡ false }
    ensures appended { OnOk result
        (line.new.items ≡ line.old.items ++ lines.value_line scale.now place point.now) }
    ensures unchanged { OnErr result (line.new.items ≡ line.old.items) }
{
    let Point::Scaled(x) = *point else {
        return append_point_line(line, place, point);
    };
    let start = line.len();
    let appended = append_scaled(line, place, x, scale);
    if appended.is_err() {
        line.truncate(start);
    }
    appended
}

/// Appends the line of the point with the scaled integer X. Where there is no memory a prefix of it is appended.
#[inline]
fn append_scaled(
    line: &mut Vec<u8>,
    place: u32,
    x: i64,
    scale: &DecimalScale,
) -> Result<(), AllocError>
    requires fits { is_too_large (value_at scale.now x) scale.now.places ≡ false }
    ensures appended { OnOk result (line.new.items ≡ line.old.items
        ++ decimal place ++ codes " " ++ decimal_text (value_at scale.now x) scale.now.places ++ 10 ∷ []) }
    ensures kept { take (vec_len line.old) line.new.items ≡ line.old.items }
{
    append_place(line, place)?;
    append_decimal(line, x, scale)?;
    line.push(b'\n')?;
    Ok(())
}

/// Appends the place and a space.
#[inline]
fn append_place(line: &mut Vec<u8>, place: u32) -> Result<(), AllocError>
    ensures appended { OnOk result (line.new.items ≡ line.old.items ++ decimal place ++ codes " ") }
    ensures unchanged { OnErr result (line.new.items ≡ line.old.items) }
{
    let mut buffer = [0u8; LONGEST];
    buffer[LONGEST - 1] = b' ';
    let start = write_digits(u64::from(place), &mut buffer, LONGEST - 1);
    line.extend_from_slice(&buffer[start..])
}

/// Appends the value of the point with the scaled integer X.
#[inline]
fn append_decimal(line: &mut Vec<u8>, x: i64, scale: &DecimalScale) -> Result<(), AllocError>
    requires fits { is_too_large (value_at scale.now x) scale.now.places ≡ false }
    ensures appended { OnOk result
        (line.new.items ≡ line.old.items ++ decimal_text (value_at scale.now x) scale.now.places) }
    ensures unchanged { OnErr result (line.new.items ≡ line.old.items) }
{
    match scale.append(line, x) {
        Ok(()) => Ok(()),
        Err(DecimalFault::Memory) => Err(AllocError),
        Err(DecimalFault::Range) => unreachable!(),
    }
}
