//! The number of low bits that a block takes the fewest bits with.

ghost use Rattle.std.specs.Prelude.{◌≡◌, ℕ, ◌<◌, ◌≤◌, ◌^◌, length};
ghost use Rattle.grib_coding.specs.Choices.{high_sum};
ghost use Rattle.grib_block_writing.specs.Splits.{split_bits, IsLeastSplit};

use crate::sums::high_sum_of;

/// A number of low bits, and the bits of a block with it.
#[derive(Clone, Copy, Debug)]
pub(crate) struct SplitBits {
    pub k: u32,
    pub bits: u64,
}

/// The bits of a block with k low bits.
#[inline]
fn split_of(codes: &[u32], kept: u32, k: u32) -> SplitBits
    requires few { length codes.now ≤ 64 }
    requires kept { kept ≤ 64 }
    requires k { k < 32 }
    ensures k { result.k ≡ k }
    ensures bits { result.bits ≡ split_bits kept codes.now k }
{
    SplitBits {
        k,
        bits: u64::from(kept * (k + 1)) + high_sum_of(codes, k),
    }
}

/// The least number of low bits, up to `most`, that a block takes the fewest bits with. The search begins where the
/// mean of the codes, which sum up to `sum`, says; it ends at the same number from wherever it begins.
#[inline]
pub(crate) fn least_split(codes: &[u32], kept: u32, most: u32, sum: u64) -> SplitBits
    requires few { length codes.now ≤ 64 }
    requires some { 1 ≤ kept }
    requires kept { kept ≤ 64 }
    requires most { most < 32 }
    ensures { IsLeastSplit kept codes.now most result.k result.bits }
{
    let mean = sum / u64::from(kept);
    let guess = if mean == 0 { 0 } else { mean.ilog2().min(most) };
    let start = split_of(codes, kept, guess);
    let up = up_from(codes, kept, most, start);
    if up.k > start.k {
        return up;
    }
    down_from(codes, kept, most, up)
}

/// Goes up while the bits fall.
#[inline]
fn up_from(codes: &[u32], kept: u32, most: u32, start: SplitBits) -> SplitBits
    requires few { length codes.now ≤ 64 }
    requires kept { kept ≤ 64 }
    requires most { most < 32 }
    requires start { start.bits ≡ split_bits kept codes.now start.k }
    requires from { start.k ≤ most }
    ensures is { result.bits ≡ split_bits kept codes.now result.k }
    ensures within { result.k ≤ most }
    ensures from { start.k ≤ result.k }
    ensures above { (j : ℕ) → result.k ≤ j → j ≤ most → result.bits ≤ split_bits kept codes.now j }
    ensures below { start.k < result.k → (j : ℕ) → j < result.k → result.bits < split_bits kept codes.now j }
{
    let mut best = start;
    while best.k < most {
        let next = split_of(codes, kept, best.k + 1);
        if next.bits >= best.bits {
            return best;
        }
        best = next;
    }
    best
}

/// Goes down while the bits do not rise.
#[inline]
fn down_from(codes: &[u32], kept: u32, most: u32, start: SplitBits) -> SplitBits
    requires few { length codes.now ≤ 64 }
    requires kept { kept ≤ 64 }
    requires most { most < 32 }
    requires start { start.bits ≡ split_bits kept codes.now start.k }
    requires from { start.k ≤ most }
    requires above { (j : ℕ) → start.k ≤ j → j ≤ most → start.bits ≤ split_bits kept codes.now j }
    ensures { IsLeastSplit kept codes.now most result.k result.bits }
{
    let mut best = start;
    while best.k > 0 {
        let next = split_of(codes, kept, best.k - 1);
        if next.bits > best.bits {
            return best;
        }
        best = next;
    }
    best
}
