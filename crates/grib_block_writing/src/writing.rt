//! One block, or one run, as it is written.

ghost use Rattle.std.specs.Prelude.{◌≡◌, ℕ, ◌+◌, ◌-◌, ◌*◌, ◌/◌, ◌%◌, ◌^◌, ◌<◌, ◌≤◌, All, length};
ghost use Rattle.grib_coding.specs.Reading.{IsWithin, coded_of};
ghost use Rattle.grib_coding.specs.Coding.{Fits, greatest, identifier_width};
ghost use Rattle.grib_coding.specs.Items.{Run, Second, Split, Plain};
ghost use Rattle.grib_coding.specs.Written.{chosen_item, coded_bits, pair_numbers, highs, lows};
ghost use Rattle.grib_block_writing.specs.Steps.{AddsBits, head_bits};

use crate::choosing::choose;
use crate::items::{write_high, write_low, write_pairs, write_plain, write_sequence};
use grib_bits::BitWriter;
use grib_coding::{Choice, Coding};

/// Writes the identifier in `width` bits, and the reference, if there is one.
#[inline]
fn write_head(
    identifier: u32,
    width: u32,
    reference: Option<u32>,
    coding: &Coding,
    out: &mut BitWriter,
)
    requires width { width ≤ 32 }
    requires bits { coding.now.bits ≤ 32 }
    requires fits { identifier < 2 ^ width }
    requires reference { IsWithin coding.now reference }
    requires room { length (head_bits coding.now identifier width reference) ≤ out.old.spare }
    ensures { AddsBits out.old out.new (head_bits coding.now identifier width reference) }
{
    out.put(u64::from(identifier), width);
    if let Some(number) = reference {
        out.put(u64::from(number), u32::from(coding.bits));
    }
}

/// Writes a run with this number.
pub(crate) fn write_run(number: u32, reference: Option<u32>, coding: &Coding, out: &mut BitWriter)
    requires fits { Fits coding.now }
    requires reference { IsWithin coding.now reference }
    requires room { length (coded_bits coding.now (coded_of reference (Run number))) ≤ out.old.spare }
    ensures { AddsBits out.old out.new (coded_bits coding.now (coded_of reference (Run number))) }
{
    write_head(0, coding.identifier_width() + 1, reference, coding, out);
    write_sequence(number, out);
}

/// Writes a block of these codes, but for one that a reference stands for, as they are.
fn write_plain_block(kept: &[u32], reference: Option<u32>, coding: &Coding, out: &mut BitWriter)
    requires fits { Fits coding.now }
    requires within { All (λ code. code ≤ greatest coding.now) kept.now }
    requires reference { IsWithin coding.now reference }
    requires room { length (coded_bits coding.now (coded_of reference (Plain kept.now))) ≤ out.old.spare }
    ensures { AddsBits out.old out.new (coded_bits coding.now (coded_of reference (Plain kept.now))) }
{
    let width = coding.identifier_width();
    write_head((1 << width) - 1, width, reference, coding, out);
    write_plain(kept, u32::from(coding.bits), out);
}

/// Writes a block of these codes in pairs.
fn write_pair_block(codes: &[u32], reference: Option<u32>, coding: &Coding, out: &mut BitWriter)
    requires fits { Fits coding.now }
    requires pairs { length codes.now % 2 ≡ 0 }
    requires small { All (λ code. code < 2 ^ 15) codes.now }
    requires reference { IsWithin coding.now reference }
    requires room { length (coded_bits coding.now (coded_of reference (Second (pair_numbers codes.now)))) ≤ out.old.spare }
    ensures { AddsBits out.old out.new (coded_bits coding.now (coded_of reference (Second (pair_numbers codes.now)))) }
{
    write_head(1, coding.identifier_width() + 1, reference, coding, out);
    write_pairs(codes, out);
}

/// Writes a block of these codes, but for one that a reference stands for, with `k` low bits.
fn write_split_block(
    kept: &[u32],
    k: u32,
    reference: Option<u32>,
    coding: &Coding,
    out: &mut BitWriter,
)
    requires fits { Fits coding.now }
    requires k { k + 3 ≤ 2 ^ identifier_width coding.now }
    requires reference { IsWithin coding.now reference }
    requires room { length (coded_bits coding.now (coded_of reference (Split k (highs k kept.now) (lows k kept.now)))) ≤ out.old.spare }
    ensures { AddsBits out.old out.new (coded_bits coding.now (coded_of reference (Split k (highs k kept.now) (lows k kept.now)))) }
{
    write_head(k + 1, coding.identifier_width(), reference, coding, out);
    write_high(kept, k, out);
    write_low(kept, k, out);
}

/// Writes a block of these codes, of which the first is 0 where there is a reference, as the item of the fewest bits.
pub(crate) fn write_block(
    codes: &[u32],
    reference: Option<u32>,
    coding: &Coding,
    out: &mut BitWriter,
)
    requires fits { Fits coding.now }
    requires block { length codes.now ≡ coding.now.block }
    requires within { All (λ code. code ≤ greatest coding.now) codes.now }
    requires reference { IsWithin coding.now reference }
    requires room { length (coded_bits coding.now (coded_of reference (chosen_item coding.now reference codes.now))) ≤ out.old.spare }
    ensures { AddsBits out.old out.new (coded_bits coding.now (coded_of reference (chosen_item coding.now reference codes.now))) }
{
    let skip = u32::from(reference.is_some());
    let kept = &codes[skip as usize..];
    match choose(codes, skip, coding) {
        Choice::Plain => write_plain_block(kept, reference, coding, out),
        Choice::Second => write_pair_block(codes, reference, coding, out),
        Choice::Split(k) => write_split_block(kept, u32::from(k), reference, coding, out),
    }
}
