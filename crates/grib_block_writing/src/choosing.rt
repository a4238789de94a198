//! The choice of a block.

ghost use Rattle.std.specs.Prelude.{◌≡◌, ◌+◌, ◌-◌, ◌*◌, ◌/◌, ◌%◌, ◌^◌, ◌<◌, ◌≤◌, length};
ghost use Rattle.grib_coding.specs.Coding.{Fits};
ghost use Rattle.grib_coding.specs.Choices.{high_sum, pair_sum, chosen};

use crate::splitting::least_split;
use crate::sums::{high_sum_of, pair_sum_of};
use grib_coding::{Choice, Coding};

/// The item of fewest bits for the codes of a block, of which the first `skip` stand in a reference and are 0 here.
/// Of several with the same bits, `Plain` goes before `Second`, `Second` before `Split`, and less before more low bits.
pub fn choose(codes: &[u32], skip: u32, coding: &Coding) -> Choice
    requires fits { Fits coding.now }
    requires block { length codes.now ≡ coding.now.block }
    requires skip { skip ≤ 1 }
    ensures { result ≡ chosen coding.now skip codes.now }
{
    let kept = u32::from(coding.block) - skip;
    let plain = u64::from(kept * u32::from(coding.bits));
    let sum = high_sum_of(codes, 0);
    let pairs = second_bits(codes, sum, plain);
    let best = if pairs < plain {
        Choice::Second
    } else {
        Choice::Plain
    };
    let width = coding.identifier_width();
    if width == 1 {
        return best;
    }
    let split = least_split(codes, kept, (1 << width) - 3, sum);
    if split.bits < pairs.min(plain) {
        Choice::Split(split.k as u8)
    } else {
        best
    }
}

/// The bits of a block in pairs, but at least `plain` where these are as few: a code counts no more than its pair.
#[inline]
fn second_bits(codes: &[u32], sum: u64, plain: u64) -> u64
    requires few { length codes.now ≤ 64 }
    requires pairs { length codes.now % 2 ≡ 0 }
    requires sum { sum ≡ high_sum 0 codes.now }
    requires small { plain < 2 ^ 16 }
    ensures fewer { result < plain → result ≡ 1 + length codes.now / 2 + pair_sum codes.now }
    ensures no_fewer { plain ≤ result → plain ≤ 1 + length codes.now / 2 + pair_sum codes.now }
{
    if sum >= plain {
        return plain;
    }
    1 + codes.len() as u64 / 2 + pair_sum_of(codes)
}
