//! Numbers of one width that stand one after another.

ghost use Rattle.std.specs.Prelude.{◌≡◌, ℕ, ◌+◌, ◌-◌, ◌*◌, ◌/◌, ◌%◌, ◌^◌, ◌<◌, ◌≤◌, ◌++◌, length, replicate, take, drop, map, pos, IfOk, OnOk};
ghost use Rattle.grib_bits.specs.Bits.{bits as bits_in, num};
ghost use Rattle.grib_bits.specs.Plain.{plain};
ghost use Rattle.grib_bitmap.specs.Mask.{present_count};
ghost use Rattle.grib_packing.specs.Column.{points_with_mask};
ghost use Rattle.grib_packing.specs.declared.column.Point.TheVariants.{Scaled};
ghost use Rattle.grib_simple_reading.specs.Part.{plain_from};

use byteorder::{BigEndian, ByteOrder};
use grib_bitmap::{Mask, ones};
use grib_bits::{get_bits, number_in_word};
use grib_packing::Point;
use std::alloc::{AllocError, Global};
use std::simd::prelude::*;

/// The first `count` numbers without sign of `bits` bits each, which stand one after another from the
/// first bit of `octets` on (WMO-No. 306, Volume I.2, FM 92 GRIB edition 2, data template 7.0).
/// Numbers of no bits are 0.
///
/// # Errors
///
/// There is no memory for the numbers.
pub fn unpack_numbers(
    alloc: Global,
    octets: &[u8],
    bits: u32,
    count: u32,
) -> Result<Vec<u64>, AllocError>
    requires width { bits ≤ 48 }
    requires within { bits * count ≤ 8 * length octets.now }
    ensures { IfOk result (λ numbers. numbers.items ≡ plain (bits_in octets.now) bits count) }
{
    let mut numbers = Vec::with_capacity(alloc, count as usize)?;
    let from = push_lanes(octets, bits, count, &mut numbers)?;
    let whole = count_in_words(octets.len(), bits, count);
    push_numbers(octets, bits, whole, from, count, &mut numbers)?;
    Ok(numbers)
}

/// Numbers as the scaled integers of points: no vector of numbers stands
/// beside them.
///
/// # Errors
///
/// There is no memory for the points.
pub fn unpack_points(
    alloc: Global,
    octets: &[u8],
    bits: u32,
    count: u32,
) -> Result<Vec<Point>, AllocError>
    requires width { bits ≤ 48 }
    requires within { bits * count ≤ 8 * length octets.now }
    ensures { IfOk result (λ points. points.items
        ≡ map (λ x. Scaled (pos x)) (plain (bits_in octets.now) bits count)) }
{
    let mut points = Vec::with_capacity(alloc, count as usize)?;
    let whole = count_in_words(octets.len(), bits, count);
    push_numbers(octets, bits, whole, 0, count, &mut points)?;
    Ok(points)
}

/// What is made of a packed number.
trait Unpacked: Copy + Drop {
    ghost unpacked: { ℕ → Self };

    fn of(number: u64) -> Self
        requires { number < 2 ^ 48 }
        ensures { result ≡ unpacked number };
}

impl Unpacked for u64 {
    ghost unpacked = { λ x. x };

    #[inline]
    fn of(number: u64) -> u64 {
        number
    }
}

impl Unpacked for Point {
    ghost unpacked = { λ x. Scaled (pos x) };

    #[inline]
    fn of(number: u64) -> Point {
        Point::Scaled(number as i64)
    }
}

/// Adds the numbers that fill one octet or two, as far as they come by eights, and gives how many those
/// are: 0 where numbers have another width.
fn push_lanes(
    octets: &[u8],
    bits: u32,
    count: u32,
    numbers: &mut Vec<u64>,
) -> Result<u32, AllocError>
    requires { bits * count ≤ 8 * length octets.now }
    ensures { IfOk result (λ pushed. (pushed ≤ count) × (numbers.new.items
        ≡ numbers.old.items ++ plain (bits_in octets.now) bits pushed)) }
{
    match bits {
        8 => push_octets(octets, count / 8, numbers)?,
        16 => push_pairs(octets, count / 8, numbers)?,
        _ => return Ok(0),
    }
    Ok(8 * (count / 8))
}

/// Adds this many times eight numbers of one octet.
fn push_octets(octets: &[u8], eights: u32, numbers: &mut Vec<u64>) -> Result<(), AllocError>
    requires { 8 * eights ≤ length octets.now }
    ensures { OnOk result (numbers.new.items
        ≡ numbers.old.items ++ plain (bits_in octets.now) 8 (8 * eights)) }
{
    for eight in 0..eights {
        let lanes = octet_lanes(octets, 8 * eight as usize);
        numbers.extend_from_slice(&lanes.to_array())?;
    }
    Ok(())
}

/// Adds this many times eight numbers of two octets.
fn push_pairs(octets: &[u8], eights: u32, numbers: &mut Vec<u64>) -> Result<(), AllocError>
    requires { 16 * eights ≤ length octets.now }
    ensures { OnOk result (numbers.new.items
        ≡ numbers.old.items ++ plain (bits_in octets.now) 16 (8 * eights)) }
{
    for eight in 0..eights {
        let lanes = pair_lanes(octets, 16 * eight as usize);
        numbers.extend_from_slice(&lanes.to_array())?;
    }
    Ok(())
}

/// The eight numbers of one octet that begin at this place in the octets.
#[inline(always)]
fn octet_lanes(octets: &[u8], at: usize) -> u64x8
    requires { at + 8 ≤ length octets.now }
    ensures { result ≡ plain_from (bits_in octets.now) 8 at 8 }
{
    u8x8::from_slice(&octets[at..]).cast::<u64>()
}

/// The eight numbers of two octets that begin at this place in the octets.
#[inline(always)]
fn pair_lanes(octets: &[u8], at: usize) -> u64x8
    requires within { at + 16 ≤ length octets.now }
    requires even { at % 2 ≡ 0 }
    ensures { result ≡ plain_from (bits_in octets.now) 16 (at / 2) 8 }
{
    let pairs = u16x8::from_le_bytes(u8x16::from_slice(&octets[at..]));
    ((pairs << 8) | (pairs >> 8)).cast::<u64>()
}

/// The numbers of the points that a mask has, and the points that it leaves out as missing: each point
/// takes its place in one pass.
///
/// # Errors
///
/// There is no memory for the points.
pub fn masked_points(
    alloc: Global,
    octets: &[u8],
    bits: u32,
    mask: &Mask,
) -> Result<Vec<Point>, AllocError>
    requires width { bits ≤ 48 }
    requires within { bits * present_count mask.now ≤ 8 * length octets.now }
    ensures { IfOk result (λ points. points.items
        ≡ points_with_mask mask.now (map (λ x. Scaled (pos x))
        (plain (bits_in octets.now) bits (present_count mask.now)))) }
{
    let mut points = Vec::with_capacity(alloc, mask.len() as usize)?;
    let whole = count_in_words(octets.len(), bits, ones(mask));
    let mut place = 0;
    let mut taken = 0;
    while place < mask.len() {
        let run = mask.run(place);
        if run.present {
            push_numbers(octets, bits, whole, taken, taken + run.length, &mut points)?;
            taken += run.length;
        } else {
            push_same(Point::Missing, run.length, &mut points)?;
        }
        place += run.length;
    }
    Ok(points)
}

/// Adds what is made of the numbers from the one at `from` up to the one at `to`. The first `whole` of
/// all numbers have a word of octets.
#[inline]
fn push_numbers<T: Unpacked>(
    octets: &[u8],
    bits: u32,
    whole: u32,
    from: u32,
    to: u32,
    items: &mut Vec<T>,
) -> Result<(), AllocError>
    requires width { bits ≤ 48 }
    requires within { bits * to ≤ 8 * length octets.now }
    requires words { (k : ℕ) → k < whole → 1 ≤ bits × (k * bits / 8 + 8 ≤ length octets.now) }
    requires order { from ≤ to }
    ensures { OnOk result (items.new.items
        ≡ items.old.items ++ map T.unpacked (plain_from (bits_in octets.now) bits from (to - from))) }
{
    if bits == 0 {
        return push_same(T::of(0), to - from, items);
    }
    let middle = whole.min(to).max(from);
    push_words(octets, bits, from, middle, items)?;
    push_last(octets, bits, middle, to, items)
}

/// Adds an item `count` times.
#[inline]
fn push_same<T: Copy + Drop>(item: T, count: u32, items: &mut Vec<T>) -> Result<(), AllocError>
    ensures { OnOk result (items.new.items ≡ items.old.items ++ replicate count item) }
{
    for _pushed in 0..count {
        items.push(item)?;
    }
    Ok(())
}

/// Adds what is made of numbers that have a word of octets.
#[inline(always)]
fn push_words<T: Unpacked>(
    octets: &[u8],
    bits: u32,
    from: u32,
    to: u32,
    items: &mut Vec<T>,
) -> Result<(), AllocError>
    requires width { bits ≤ 48 }
    requires words { (k : ℕ) → from ≤ k → k < to
        → 1 ≤ bits × (k * bits / 8 + 8 ≤ length octets.now) }
    requires order { from ≤ to }
    ensures { OnOk result (items.new.items
        ≡ items.old.items ++ map T.unpacked (plain_from (bits_in octets.now) bits from (to - from))) }
{
    for index in from..to {
        let at = u64::from(index) * u64::from(bits);
        items.push(T::of(number_in_word(octets, at, bits)))?;
    }
    Ok(())
}

/// How many of the numbers begin where eight octets are left, or a few less.
fn count_in_words(length: usize, bits: u32, count: u32) -> u32
    ensures count { result ≤ count }
    ensures within { (k : ℕ) → k < result → 1 ≤ bits × (k * bits / 8 + 8 ≤ length) }
{
    if bits == 0 || length < 8 {
        return 0;
    }
    // Eight numbers take as many octets as one has bits.
    let eights = (length as u64 - 8) / u64::from(bits);
    u64::from(count).min(eights.saturating_mul(8)) as u32
}

/// Adds what is made of numbers that may end with the octets: a few.
fn push_last<T: Unpacked>(
    octets: &[u8],
    bits: u32,
    from: u32,
    to: u32,
    items: &mut Vec<T>,
) -> Result<(), AllocError>
    requires width { bits ≤ 48 }
    requires within { bits * to ≤ 8 * length octets.now }
    requires order { from ≤ to }
    ensures { OnOk result (items.new.items
        ≡ items.old.items ++ map T.unpacked (plain_from (bits_in octets.now) bits from (to - from))) }
{
    for index in from..to {
        let at = u64::from(index) * u64::from(bits);
        items.push(T::of(get_bits(octets, at, bits)))?;
    }
    Ok(())
}
