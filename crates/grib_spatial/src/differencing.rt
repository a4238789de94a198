//! The differences of numbers.

ghost use Rattle.std.specs.Prelude.{◌≡◌, ◌+◌, ◌-◌, ◌^◌, ◌<◌, ◌≤◌, pos, ◌+ℤ◌, ◌-ℤ◌, ◌*ℤ◌, nat_abs, length, All, IfOk};
ghost use Rattle.grib_packing.specs.Differences.{difference_at, differences, lesser, least, descriptors_of, code_at, difference_codes};
ghost use Rattle.grib_spatial.specs.Undoing.{read_with};
ghost use Rattle.grib_complex_reading.specs.Order.{IsOrder};

use crate::differences::Differences;
use grib_base::List;
use std::alloc::{AllocError, Global};

/// The spatial differences of order 1 or 2 of these numbers, with the least minimum (WMO-No. 306, Volume
/// I.2, FM 92 GRIB edition 2, data template 7.3, code table 5.6). A first number that does not exist is
/// 0, and so is the second one of order 1.
///
/// # Errors
///
/// There is no memory for the codes.
pub fn difference(alloc: Global, values: &[i64], order: u8) -> Result<Differences, AllocError>
    requires order { IsOrder order }
    requires values { All (λ x. nat_abs x ≤ 2 ^ 60) values.now }
    ensures told { IfOk result (λ told. read_with order told ≡ descriptors_of order values.now) }
    ensures codes { IfOk result (λ told. told.codes ≡ difference_codes order values.now) }
{
    let order = usize::from(order);
    let minimum = least_difference(values, order);
    let codes = codes_above(alloc, values, order, minimum)?;
    Ok(Differences {
        first: values.first().copied().unwrap_or(0),
        second: if order == 1 {
            0
        } else {
            values.get(1).copied().unwrap_or(0)
        },
        minimum,
        codes: List::of(codes),
    })
}

/// The difference of the number at a place with those before it.
#[inline]
fn difference_of(values: &[i64], order: usize, place: usize) -> i64
    requires order { IsOrder order }
    requires values { All (λ x. nat_abs x ≤ 2 ^ 60) values.now }
    requires from { order ≤ place }
    requires within { place < length values.now }
    ensures is { result ≡ difference_at order values.now place }
    ensures small { nat_abs result ≤ 2 ^ 62 }
{
    if order == 1 {
        values[place] - values[place - 1]
    } else {
        second_difference(values[place - 2], values[place - 1], values[place])
    }
}

/// The second difference of three numbers that follow one another.
#[inline]
pub fn second_difference(x: i64, y: i64, z: i64) -> i64
    requires x { nat_abs x ≤ 2 ^ 60 }
    requires y { nat_abs y ≤ 2 ^ 60 }
    requires z { nat_abs z ≤ 2 ^ 60 }
    ensures is { result ≡ (z -ℤ (pos 2 *ℤ y)) +ℤ x }
    ensures small { nat_abs result ≤ 2 ^ 62 }
{
    z - 2 * y + x
}

/// The least difference, 0 where there is none.
fn least_difference(values: &[i64], order: usize) -> i64
    requires order { IsOrder order }
    requires values { All (λ x. nat_abs x ≤ 2 ^ 60) values.now }
    ensures is { result ≡ least (differences order values.now) }
    ensures small { nat_abs result ≤ 2 ^ 62 }
{
    if values.len() <= order {
        return 0;
    }
    let mut minimum = difference_of(values, order, order);
    for place in order + 1..values.len() {
        minimum = lesser_of(minimum, difference_of(values, order, place));
    }
    minimum
}

/// The lesser of two numbers.
#[inline]
pub fn lesser_of(x: i64, y: i64) -> i64
    ensures { result ≡ lesser x y }
{
    if y < x { y } else { x }
}

/// How far each difference is above the minimum, and 0 for the first `order` numbers.
fn codes_above(
    alloc: Global,
    values: &[i64],
    order: usize,
    minimum: i64,
) -> Result<Vec<u64>, AllocError>
    requires order { IsOrder order }
    requires values { All (λ x. nat_abs x ≤ 2 ^ 60) values.now }
    requires minimum { minimum ≡ least (differences order values.now) }
    ensures { IfOk result (λ codes. codes.items ≡ difference_codes order values.now) }
{
    let mut codes = Vec::with_capacity(alloc, values.len())?;
    for place in 0..values.len() {
        codes.push(code_above(values, order, place, minimum))?;
    }
    Ok(codes)
}

/// How far the difference at a place is above the minimum, and 0 for the first `order` places.
#[inline]
fn code_above(values: &[i64], order: usize, place: usize, minimum: i64) -> u64
    requires order { IsOrder order }
    requires values { All (λ x. nat_abs x ≤ 2 ^ 60) values.now }
    requires minimum { minimum ≡ least (differences order values.now) }
    requires within { place < length values.now }
    ensures { result ≡ code_at order values.now place }
{
    if place < order {
        return 0;
    }
    difference_of(values, order, place).abs_diff(minimum)
}
