//! All blocks of numbers, item after item.

ghost use Rattle.std.specs.Prelude.{◌≡◌, ◌+◌, ◌-◌, ◌*◌, ◌%◌, ◌^◌, ◌<◌, ◌≤◌, All, length, drop, Bool, false, ◌||◌, ◌==◌};
ghost use Rattle.grib_coding.specs.Reading.{IsWithin, coded_of};
ghost use Rattle.grib_coding.specs.Coding.{Fits, greatest, block_count, is_padded};
ghost use Rattle.grib_coding.specs.Blocks.{blocks_of, codes_of};
ghost use Rattle.grib_block_writing.specs.Steps.{block_at};
ghost use Rattle.grib_coding.specs.Written.{bits_from, chosen_item, coded_bits, number_of, run_length, written};
ghost use Rattle.grib_block_writing.specs.Steps.{AddsBits, Leaves};
ghost use Rattle.grib_coding.specs.Runs.{run_room, run_number};

use crate::blocks::{fill_codes, reference_in, run_length_at};
use crate::writing::{write_block, write_run};
use crate::zero_runs::{number_of_run, room_of_run};
use grib_bits::BitWriter;
use grib_coding::Coding;

/// The number of the run of so many zero blocks that begins with a block.
pub(crate) fn run_number_at(count: u32, block: u32, zeros: u32, coding: &Coding) -> u32
    requires fits { Fits coding.now }
    requires some { 1 ≤ zeros }
    requires within { block + zeros ≤ count }
    ensures is { (ends : Bool) → ends ≡ (zeros == run_room coding.now (block % coding.now.interval) || (zeros == count - block)) → result ≡ run_number zeros ends }
    ensures small { result ≤ zeros }
{
    let room = room_of_run(coding, block % u32::from(coding.interval));
    let ends = zeros == room || zeros == count - block;
    number_of_run(zeros, ends)
}

/// Writes a block that is in no run.
fn write_block_at(
    numbers: &[u32],
    block: u32,
    reference: Option<u32>,
    coding: &Coding,
    out: &mut BitWriter,
)
    requires fits { Fits coding.now }
    requires within { block < block_count coding.now (length numbers.now) }
    requires few { length numbers.now < 2 ^ 32 }
    requires numbers { All (λ number. number ≤ greatest coding.now) numbers.now }
    requires reference { IsWithin coding.now reference }
    requires room { length (coded_bits coding.now (coded_of reference (chosen_item coding.now reference (codes_of (block_at coding.now numbers.now block))))) ≤ out.old.spare }
    ensures { AddsBits out.old out.new (coded_bits coding.now (coded_of reference (chosen_item coding.now reference (codes_of (block_at coding.now numbers.now block))))) }
{
    let mut codes = [0; 64];
    let codes = &mut codes[..usize::from(coding.block)];
    fill_codes(numbers, block, coding, codes);
    write_block(codes, reference, coding, out);
}

/// Writes the item that begins with a block. How many blocks it covers.
fn write_item(numbers: &[u32], block: u32, coding: &Coding, out: &mut BitWriter) -> u32
    requires fits { Fits coding.now }
    requires within { block < block_count coding.now (length numbers.now) }
    requires few { length numbers.now < 2 ^ 32 }
    requires numbers { All (λ number. number ≤ greatest coding.now) numbers.now }
    requires room { length (bits_from coding.now block (drop block (blocks_of coding.now numbers.now))) ≤ out.old.spare }
    ensures left { Leaves out.old out.new (bits_from coding.now block (drop block (blocks_of coding.now numbers.now))) (bits_from coding.now (block + result) (drop (block + result) (blocks_of coding.now numbers.now))) }
    ensures some { 1 ≤ result }
    ensures within { block + result ≤ block_count coding.now (length numbers.now) }
{
    let reference = reference_in(numbers, block, coding);
    let zeros = run_length_at(numbers, block, coding);
    if zeros == 0 {
        write_block_at(numbers, block, reference, coding, out);
        return 1;
    }
    let count = coding.block_count(numbers.len() as u32);
    let number = run_number_at(count, block, zeros, coding);
    write_run(number, reference, coding, out);
    zeros
}

/// Writes numbers in blocks: zero blocks in runs as long as possible, each other block as the item of the fewest bits. The
/// last octet is not filled.
pub fn write_blocks(numbers: &[u32], coding: &Coding, out: &mut BitWriter)
    requires fits { Fits coding.now }
    requires unpadded { is_padded coding.now ≡ false }
    requires few { length numbers.now ≤ 2 ^ 25 }
    requires numbers { All (λ number. number ≤ greatest coding.now) numbers.now }
    requires room { length (written coding.now numbers.now) ≤ out.old.spare }
    ensures { AddsBits out.old out.new (written coding.now numbers.now) }
{
    let count = coding.block_count(numbers.len() as u32);
    let mut block = 0;
    while block < count {
        block += write_item(numbers, block, coding, out);
    }
}
