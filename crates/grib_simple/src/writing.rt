//! Simple packing as it is written.

ghost use Rattle.std.specs.Prelude.{◌≡◌, ◌+◌, ◌-◌, ◌*◌, ◌/◌, ◌^◌, ◌<◌, ◌≤◌, ◌++◌, [], cond, not, false, replicate, length, All};
ghost use Rattle.std.specs.List.{list_any};
ghost use Rattle.grib_bits.specs.Bits.{bits_of, digit};
ghost use Rattle.grib_packing.specs.Misfits.{is_missing as is_missing_point, is_missing2};
ghost use Rattle.grib_packing.specs.Packed.{HasContents, HasNumbers, IsBitmap, fields, present_bits, simple_numbers};
ghost use Rattle.grib_simple.specs.Survey.{IsSurvey};

use crate::repeated::put_same;
use crate::survey::Survey;
use grib_base::List;
use grib_bits::{BitWriter, write_u8};
use grib_packing::{Column, Point, no_bitmap, octets_written, write_head, write_numbers};

/// Section 5 of simple packing, in a writer that has room for its 21 octets (WMO-No. 306, Volume I.2, FM
/// 92 GRIB edition 2, data representation template 5.0).
pub fn representation_section(
    column: &Column,
    values: u32,
    bits: u8,
    kind: u8,
    mut room: BitWriter,
) -> List<u8>
    requires none { room.bits ≡ [] }
    requires room { 168 ≤ room.spare }
    ensures length { length result ≡ 21 }
    ensures numbers { HasNumbers result column.now values 0 bits kind }
{
    write_head(21, 5, &mut room);
    write_numbers(column, values, 0, bits, kind, &mut room);
    octets_written(room)
}

/// Section 6, in a writer that has room for it: without a bitmap where no point is missing (WMO-No. 306,
/// Volume I.2, FM 92 GRIB edition 2, code table 6.0). This many points have a scaled integer.
pub fn bitmap_section(points: &[Point], present: u32, missing: bool, room: BitWriter) -> List<u8>
    requires few { length points.now ≤ 33554432 }
    requires one_kind { list_any is_missing2 points.now ≡ false }
    requires present { present ≡ length (simple_numbers points.now) }
    requires missing { missing ≡ list_any is_missing_point points.now }
    requires none { room.bits ≡ [] }
    requires room { 8 * cond missing (6 + (length points.now + 7) / 8) 6 ≤ room.spare }
    ensures { IsBitmap result points.now }
{
    if missing {
        own_bitmap(points, present, room)
    } else {
        no_bitmap(room)
    }
}

/// Section 6 with a bitmap, in a writer that has room for it.
fn own_bitmap(points: &[Point], present: u32, mut room: BitWriter) -> List<u8>
    requires few { length points.now ≤ 33554432 }
    requires one_kind { list_any is_missing2 points.now ≡ false }
    requires present { present ≡ length (simple_numbers points.now) }
    requires none { room.bits ≡ [] }
    requires room { 48 + 8 * ((length points.now + 7) / 8) ≤ room.spare }
    ensures { HasContents 6 result (bits_of 8 0 ++ present_bits points.now) }
{
    write_head(6 + (points.len() as u32).div_ceil(8), 6, &mut room);
    write_u8(0, &mut room);
    put_bitmap(points, present, &mut room);
    room.align();
    octets_written(room)
}

/// Writes a bit for each point, 1 for those that are not missing. Where this many have a scaled
/// integer and these are none, no point is looked at.
fn put_bitmap(points: &[Point], present: u32, out: &mut BitWriter)
    requires few { length points.now ≤ 33554432 }
    requires one_kind { list_any is_missing2 points.now ≡ false }
    requires present { present ≡ length (simple_numbers points.now) }
    requires room { length points.now ≤ out.old.spare }
    ensures bits { out.new.bits ≡ out.old.bits ++ present_bits points.now }
    ensures spare { out.new.spare + length points.now ≡ out.old.spare }
{
    if present == 0 {
        put_zeros(points.len() as u32, out);
    } else {
        put_present(points, out);
    }
}

/// Writes this many bits that are 0.
fn put_zeros(count: u32, out: &mut BitWriter)
    requires { count ≤ out.old.spare }
    ensures bits { out.new.bits ≡ out.old.bits ++ replicate count false }
    ensures spare { out.new.spare + count ≡ out.old.spare }
{
    for _word in 0..count / 64 {
        out.put(0, 64);
    }
    out.put(0, count % 64);
}

/// Writes a bit for each point, 1 for those that are not missing.
fn put_present(points: &[Point], out: &mut BitWriter)
    requires { length points.now ≤ out.old.spare }
    ensures bits { out.new.bits ≡ out.old.bits ++ present_bits points.now }
    ensures spare { out.new.spare + length points.now ≡ out.old.spare }
{
    let mut rest = points;
    while !rest.is_empty() {
        let (word, after) = rest.split_at(rest.len().min(64));
        out.put(present_word(word), word.len() as u32);
        rest = after;
    }
}

/// The bits of at most 64 points, as the last bits of a word.
#[inline]
fn present_word(points: &[Point]) -> u64
    requires { length points.now ≤ 64 }
    ensures bits { bits_of (length points.now) result ≡ present_bits points.now }
    ensures fits { result < 2 ^ length points.now }
{
    let mut word = 0;
    for point in points {
        word = word << 1 | present_bit(*point);
    }
    word
}

/// 1 for a point that is not missing, else 0.
#[inline(always)]
pub fn present_bit(point: Point) -> u64
    ensures bit { result ≡ digit (not (is_missing_point point)) }
    ensures small { result < 2 }
{
    match point {
        Point::Missing => 0,
        _ => 1,
    }
}

/// Section 7 of simple packing, in a writer that has room for this many octets: the scaled
/// integers, in so many bits each (WMO-No. 306, Volume I.2, FM 92 GRIB edition 2, data template
/// 7.0).
pub fn values_section(
    points: &[Point],
    survey: Survey,
    bits: u32,
    octets: u32,
    mut room: BitWriter,
) -> List<u8>
    requires survey { IsSurvey (2 ^ 48 - 1) survey points.now }
    requires width { bits ≤ 48 }
    requires fits { All (λ number. number < 2 ^ bits) (simple_numbers points.now) }
    requires octets { octets ≡ 5 + (length (simple_numbers points.now) * bits + 7) / 8 }
    requires none { room.bits ≡ [] }
    requires room { 8 * octets ≤ room.spare }
    ensures { HasContents 7 result (fields bits (simple_numbers points.now)) }
{
    write_head(octets, 7, &mut room);
    put_numbers(points, survey, bits, &mut room);
    room.align();
    octets_written(room)
}

/// Writes the scaled integers, in this many bits each: nothing, where these are none. Where the
/// numbers are known to be the same, no point is looked at.
fn put_numbers(points: &[Point], survey: Survey, bits: u32, out: &mut BitWriter)
    requires survey { IsSurvey (2 ^ 48 - 1) survey points.now }
    requires width { bits ≤ 48 }
    requires fits { All (λ number. number < 2 ^ bits) (simple_numbers points.now) }
    requires room { length (fields bits (simple_numbers points.now)) ≤ out.old.spare }
    ensures bits { out.new.bits ≡ out.old.bits ++ fields bits (simple_numbers points.now) }
    ensures spare { out.new.spare + length (fields bits (simple_numbers points.now)) ≡ out.old.spare }
{
    if bits == 0 {
        return;
    }
    if survey.same {
        put_same(survey.greatest, survey.present, bits, out);
    } else {
        put_each(points, bits, out);
    }
}

/// Writes the scaled integers one after another.
fn put_each(points: &[Point], bits: u32, out: &mut BitWriter)
    requires width { bits ≤ 48 }
    requires fits { All (λ number. number < 2 ^ bits) (simple_numbers points.now) }
    requires room { length (fields bits (simple_numbers points.now)) ≤ out.old.spare }
    ensures bits { out.new.bits ≡ out.old.bits ++ fields bits (simple_numbers points.now) }
    ensures spare { out.new.spare + length (fields bits (simple_numbers points.now)) ≡ out.old.spare }
{
    for point in points {
        if let Point::Scaled(x) = *point {
            out.put(x.unsigned_abs(), bits);
        }
    }
}
