//! The numbers that codes stand for, one after another.

ghost use Rattle.std.specs.Prelude.{◌≡◌, ℕ, ◌+◌, ◌++◌, ◌≤◌, true, false, length, map, replicate, cond, All};
ghost use Rattle.grib_coding.specs.Reading.{IsWithin};
ghost use Rattle.grib_coding.specs.Mapped.{mapped as mapped_code};
ghost use Rattle.grib_coding.specs.Coding.{greatest, is_mapped};
ghost use Rattle.grib_coding.specs.Numbers.{Code};
ghost use Rattle.grib_block_reading.specs.Kept.{IsKept, NoReference, StandsAt, point_of, reference_entries};

use crate::unmapping::unmap;
use grib_coding::Coding;
use grib_packing::{Keeper, Point};

/// What the numbers of values went to, and the last of them.
#[derive(Debug, Drop)]
pub struct Kept<K> {
    /// What keeps the points.
    pub keeper: K,
    /// The last number, 0 before the first one.
    pub last: u32,
}

/// Keeps a reference, if there is one.
#[inline]
fn keep_reference<K: Keeper>(kept: Kept<K>, coding: Coding, reference: Option<u32>) -> Kept<K>
    requires last { kept.last ≤ greatest coding }
    requires reference { IsWithin coding reference }
    ensures last { result.last ≤ greatest coding }
    ensures kept { (place : ℕ) → StandsAt coding place reference
        → IsKept K.kept coding place kept.last (reference_entries reference) kept.keeper result.last result.keeper }
{
    let Some(number) = reference else {
        return kept;
    };
    Kept {
        keeper: kept.keeper.keep(point(number)),
        last: number,
    }
}

/// Keeps the numbers that some codes stand for.
fn keep_codes<K: Keeper>(kept: Kept<K>, coding: Coding, codes: &[u64]) -> Kept<K>
    requires bits { coding.bits ≤ 32 }
    requires last { kept.last ≤ greatest coding }
    requires codes { All (λ code. code ≤ greatest coding) codes.now }
    ensures { (place : ℕ) → NoReference coding place (length codes.now)
        → IsKept K.kept coding place kept.last (map Code codes.now) kept.keeper result.last result.keeper }
{
    let most = coding.greatest();
    let is_mapped = coding.is_mapped();
    let Kept {
        mut keeper,
        mut last,
    } = kept;
    for code in codes {
        last = number_of(*code, is_mapped, most, last);
        keeper = keeper.keep(point(last));
    }
    Kept { keeper, last }
}

/// Keeps a reference, if there is one, and the numbers that some codes stand for after it.
pub(crate) fn keep_block<K: Keeper>(
    kept: Kept<K>,
    coding: Coding,
    reference: Option<u32>,
    codes: &[u64],
) -> Kept<K>
    requires bits { coding.bits ≤ 32 }
    requires last { kept.last ≤ greatest coding }
    requires reference { IsWithin coding reference }
    requires codes { All (λ code. code ≤ greatest coding) codes.now }
    ensures { (place : ℕ) → StandsAt coding place reference → NoReference coding (place + length (reference_entries reference)) (length codes.now)
        → IsKept K.kept coding place kept.last (reference_entries reference ++ map Code codes.now) kept.keeper result.last result.keeper }
{
    let kept = keep_reference(kept, coding, reference);
    keep_codes(kept, coding, codes)
}

/// The number that a code stands for after the number `last`.
#[inline(always)]
fn number_of(code: u64, is_mapped: bool, most: u32, last: u32) -> u32
    requires code { code ≤ most }
    requires last { last ≤ most }
    ensures is { cond is_mapped (mapped_code most last result) result ≡ code }
    ensures within { result ≤ most }
{
    if is_mapped {
        unmap(most, last, code as u32)
    } else {
        code as u32
    }
}

/// Keeps the numbers that `count` codes of 0 stand for.
fn keep_zeros<K: Keeper>(kept: Kept<K>, coding: Coding, count: u32) -> Kept<K>
    requires { kept.last ≤ greatest coding }
    ensures { (place : ℕ) → NoReference coding place count
        → IsKept K.kept coding place kept.last (replicate count (Code 0)) kept.keeper result.last result.keeper }
{
    let Kept {
        mut keeper,
        mut last,
    } = kept;
    let number = number_of_zero(coding, last);
    for _index in 0..count {
        last = number;
        keeper = keeper.keep(point(number));
    }
    Kept { keeper, last }
}

/// Keeps a reference, if there is one, and the numbers that `count` codes of 0 stand for after it.
pub(crate) fn keep_zero_blocks<K: Keeper>(
    kept: Kept<K>,
    coding: Coding,
    reference: Option<u32>,
    count: u32,
) -> Kept<K>
    requires last { kept.last ≤ greatest coding }
    requires reference { IsWithin coding reference }
    ensures { (place : ℕ) → StandsAt coding place reference → NoReference coding (place + length (reference_entries reference)) count
        → IsKept K.kept coding place kept.last (reference_entries reference ++ replicate count (Code 0)) kept.keeper result.last result.keeper }
{
    let kept = keep_reference(kept, coding, reference);
    keep_zeros(kept, coding, count)
}

/// The number that the code 0 stands for after the number `last`, and again after itself.
#[inline]
fn number_of_zero(coding: Coding, last: u32) -> u32
    ensures differences { is_mapped coding ≡ true → result ≡ last }
    ensures numbers { is_mapped coding ≡ false → result ≡ 0 }
{
    if coding.is_mapped() { last } else { 0 }
}

/// The point of a number.
#[inline(always)]
fn point(number: u32) -> Point
    ensures { result ≡ point_of number }
{
    Point::Scaled(i64::from(number))
}
