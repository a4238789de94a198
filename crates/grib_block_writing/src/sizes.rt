//! How many bits items have.

ghost use Rattle.std.specs.Prelude.{◌≡◌, ◌+◌, ◌-◌, ◌*◌, ◌/◌, ◌%◌, ◌^◌, ◌<◌, ◌≤◌, All, length, drop};
ghost use Rattle.grib_coding.specs.Reading.{coded_of};
ghost use Rattle.grib_coding.specs.Coding.{Fits, greatest, block_count, is_padded, identifier_width};
ghost use Rattle.grib_coding.specs.Choices.{bits_as, chosen};
ghost use Rattle.grib_coding.specs.Blocks.{blocks_of, codes_of, reference_of};
ghost use Rattle.grib_block_writing.specs.Steps.{block_at};
ghost use Rattle.grib_coding.specs.Written.{bits_from, chosen_item, coded_bits, reference_bits, skip_of, written};

use crate::blocks::{fill_codes, reference_in, run_length_at};
use crate::choosing::choose;
use crate::sums::{high_sum_of, pair_sum_of};
use crate::writer::run_number_at;
use grib_coding::{Choice, Coding};

/// How many bits an item has, and how many blocks it covers.
#[derive(Clone, Copy, Debug)]
struct ItemSize {
    bits: u64,
    blocks: u32,
}

/// How many bits the item of the fewest bits has behind its identifier and its reference.
fn fewest_bits(codes: &[u32], skip: u32, coding: &Coding) -> u64
    requires fits { Fits coding.now }
    requires block { length codes.now ≡ coding.now.block }
    requires skip { skip ≤ 1 }
    ensures { result ≡ bits_as coding.now skip codes.now (chosen coding.now skip codes.now) }
{
    let kept = u64::from(coding.block) - u64::from(skip);
    match choose(codes, skip, coding) {
        Choice::Plain => kept * u64::from(coding.bits),
        Choice::Second => 1 + u64::from(coding.block) / 2 + pair_sum_of(codes),
        Choice::Split(k) => kept * (u64::from(k) + 1) + high_sum_of(codes, u32::from(k)),
    }
}

/// How many bits an identifier and a reference have.
fn head_size(reference: Option<u32>, coding: &Coding) -> u64
    ensures is { result ≡ identifier_width coding.now + length (reference_bits coding.now reference) }
    ensures small { result ≤ 2 ^ 9 }
{
    let width = u64::from(coding.identifier_width());
    match reference {
        Some(_) => width + u64::from(coding.bits),
        None => width,
    }
}

/// How many bits a block has that is in no run.
fn size_of_block(numbers: &[u32], block: u32, reference: Option<u32>, coding: &Coding) -> u64
    requires fits { Fits coding.now }
    requires within { block < block_count coding.now (length numbers.now) }
    requires few { length numbers.now < 2 ^ 32 }
    requires numbers { All (λ number. number ≤ greatest coding.now) numbers.now }
    requires reference { reference ≡ reference_of (block_at coding.now numbers.now block) }
    ensures is { result ≡ length (coded_bits coding.now (coded_of reference (chosen_item coding.now reference (codes_of (block_at coding.now numbers.now block))))) }
    ensures small { result ≤ 2 ^ 12 }
{
    let mut codes = [0; 64];
    let codes = &mut codes[..usize::from(coding.block)];
    fill_codes(numbers, block, coding, codes);
    let skip = u32::from(reference.is_some());
    head_size(reference, coding) + fewest_bits(codes, skip, coding)
}

/// The item that begins with a block.
fn size_of_item(numbers: &[u32], block: u32, coding: &Coding) -> ItemSize
    requires fits { Fits coding.now }
    requires within { block < block_count coding.now (length numbers.now) }
    requires few { length numbers.now < 2 ^ 32 }
    requires numbers { All (λ number. number ≤ greatest coding.now) numbers.now }
    ensures left { result.bits + length (bits_from coding.now (block + result.blocks) (drop (block + result.blocks) (blocks_of coding.now numbers.now))) ≡ length (bits_from coding.now block (drop block (blocks_of coding.now numbers.now))) }
    ensures some { 1 ≤ result.blocks }
    ensures within { block + result.blocks ≤ block_count coding.now (length numbers.now) }
    ensures small { result.bits ≤ 2 ^ 12 }
{
    let reference = reference_in(numbers, block, coding);
    let zeros = run_length_at(numbers, block, coding);
    if zeros == 0 {
        return ItemSize {
            bits: size_of_block(numbers, block, reference, coding),
            blocks: 1,
        };
    }
    let count = coding.block_count(numbers.len() as u32);
    let number = run_number_at(count, block, zeros, coding);
    ItemSize {
        bits: head_size(reference, coding) + u64::from(number) + 2,
        blocks: zeros,
    }
}

/// How many bits are written of numbers.
pub fn bits_of_blocks(numbers: &[u32], coding: &Coding) -> u64
    requires fits { Fits coding.now }
    requires few { length numbers.now ≤ 2 ^ 25 }
    requires numbers { All (λ number. number ≤ greatest coding.now) numbers.now }
    ensures { result ≡ length (written coding.now numbers.now) }
{
    let count = coding.block_count(numbers.len() as u32);
    let mut bits = 0;
    let mut block = 0;
    while block < count {
        let item = size_of_item(numbers, block, coding);
        bits += item.bits;
        block += item.blocks;
    }
    bits
}
