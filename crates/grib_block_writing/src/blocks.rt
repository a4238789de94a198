//! The blocks that numbers are cut into.

ghost use Rattle.std.specs.Prelude.{◌≡◌, ℕ, ◌+◌, ◌-◌, ◌*◌, ◌%◌, ◌^◌, ◌<◌, ◌≤◌, ◌&&◌, ◌==◌, All, length, take, drop, replicate};
ghost use Rattle.grib_coding.specs.Reading.{IsWithin};
ghost use Rattle.std.specs.List.{list_all};
ghost use Rattle.grib_coding.specs.Coding.{Fits, greatest, block_count, is_mapped};
ghost use Rattle.grib_coding.specs.Blocks.{blocks_of, codes_of, reference_of, is_zero};
ghost use Rattle.grib_block_writing.specs.Steps.{block_at, numbers_of, base_of};
ghost use Rattle.grib_coding.specs.Written.{run_length};

use crate::mapping::map_block;
use crate::zero_runs::room_of_run;
use grib_coding::Coding;

/// The numbers of a block.
#[inline]
fn numbers_in<'a>(numbers: &'a [u32], block: u32, coding: &Coding) -> &'a [u32]
    requires block { 1 ≤ coding.now.block }
    requires within { block < block_count coding.now (length numbers.now) }
    requires few { length numbers.now < 2 ^ 32 }
    ensures { result.now ≡ numbers_of coding.now numbers.now block }
{
    let start = block as usize * usize::from(coding.block);
    let end = numbers.len().min(start + usize::from(coding.block));
    &numbers[start..end]
}

/// Whether a block begins with a reference.
#[inline]
fn begins_interval(block: u32, coding: &Coding) -> bool
    requires { 1 ≤ coding.now.interval }
    ensures { result ≡ (is_mapped coding.now && (block % coding.now.interval == 0)) }
{
    coding.is_mapped() && block % u32::from(coding.interval) == 0
}

/// The reference of a block, where it begins with one.
#[inline]
pub(crate) fn reference_in(numbers: &[u32], block: u32, coding: &Coding) -> Option<u32>
    requires fits { Fits coding.now }
    requires within { block < block_count coding.now (length numbers.now) }
    requires few { length numbers.now < 2 ^ 32 }
    requires numbers { All (λ number. number ≤ greatest coding.now) numbers.now }
    ensures is { result ≡ reference_of (block_at coding.now numbers.now block) }
    ensures within { IsWithin coding.now result }
{
    if begins_interval(block, coding) {
        Some(numbers[block as usize * usize::from(coding.block)])
    } else {
        None
    }
}

/// What the codes of a block are told from.
#[inline]
fn base_in(numbers: &[u32], block: u32, coding: &Coding) -> u32
    requires fits { Fits coding.now }
    requires within { block < block_count coding.now (length numbers.now) }
    requires few { length numbers.now < 2 ^ 32 }
    ensures { result ≡ base_of coding.now numbers.now block }
{
    let first = block as usize * usize::from(coding.block);
    if !coding.is_mapped() {
        0
    } else if block % u32::from(coding.interval) == 0 {
        numbers[first]
    } else {
        numbers[first - 1]
    }
}

/// Whether all numbers are this one.
#[inline]
fn are_all(numbers: &[u32], one: u32) -> bool
    ensures { result ≡ list_all (λ number. number == one) numbers.now }
{
    numbers.iter().all(|&number| number == one)
}

/// Whether a block is a zero block.
#[inline]
fn is_zero_at(numbers: &[u32], block: u32, coding: &Coding) -> bool
    requires fits { Fits coding.now }
    requires within { block < block_count coding.now (length numbers.now) }
    requires few { length numbers.now < 2 ^ 32 }
    requires numbers { All (λ number. number ≤ greatest coding.now) numbers.now }
    ensures { result ≡ is_zero (block_at coding.now numbers.now block) }
{
    are_all(
        numbers_in(numbers, block, coding),
        base_in(numbers, block, coding),
    )
}

/// How many blocks the run covers that begins with a block, none where that is no zero block.
pub(crate) fn run_length_at(numbers: &[u32], block: u32, coding: &Coding) -> u32
    requires fits { Fits coding.now }
    requires within { block < block_count coding.now (length numbers.now) }
    requires few { length numbers.now < 2 ^ 32 }
    requires numbers { All (λ number. number ≤ greatest coding.now) numbers.now }
    ensures is { result ≡ run_length coding.now (block % coding.now.interval) (drop block (blocks_of coding.now numbers.now)) }
    ensures within { block + result ≤ block_count coding.now (length numbers.now) }
    ensures few { result ≤ 64 }
{
    let room = room_of_run(coding, block % u32::from(coding.interval));
    let left = coding.block_count(numbers.len() as u32) - block;
    let most = room.min(left);
    for zeros in 0..most {
        if !is_zero_at(numbers, block + zeros, coding) {
            return zeros;
        }
    }
    most
}

/// Puts in the place of zeros the codes of a block, 0 in that of a reference.
pub(crate) fn fill_codes(numbers: &[u32], block: u32, coding: &Coding, codes: &mut [u32])
    requires fits { Fits coding.now }
    requires within { block < block_count coding.now (length numbers.now) }
    requires few { length numbers.now < 2 ^ 32 }
    requires numbers { All (λ number. number ≤ greatest coding.now) numbers.now }
    requires zeros { codes.old ≡ replicate coding.now.block 0 }
    ensures is { codes.new ≡ codes_of (block_at coding.now numbers.now block) }
    ensures within { All (λ code. code ≤ greatest coding.now) codes.new }
{
    let these = numbers_in(numbers, block, coding);
    let codes = &mut codes[..these.len()];
    if coding.is_mapped() {
        map_block(
            these,
            coding.greatest(),
            base_in(numbers, block, coding),
            codes,
        );
    } else {
        codes.copy_from_slice(these);
    }
}
