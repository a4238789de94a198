//! The bits of one item.

ghost use Rattle.std.specs.Prelude.{◌≡◌, ℕ, ◌+◌, ◌-◌, ◌*◌, ◌/◌, ◌%◌, ◌^◌, ◌<◌, ◌≤◌, All, length, map};
ghost use Rattle.grib_bits.specs.Bits.{bits_of};
ghost use Rattle.grib_coding.specs.Items.{sequence, all_bits};
ghost use Rattle.grib_coding.specs.Written.{pair_numbers, highs, lows};
ghost use Rattle.grib_block_writing.specs.Steps.{AddsBits};

use grib_bits::BitWriter;

/// Writes so many zero bits and a one bit.
#[inline(always)]
pub(crate) fn write_sequence(zeros: u32, out: &mut BitWriter)
    requires { length (sequence zeros) ≤ out.old.spare }
    ensures { AddsBits out.old out.new (sequence zeros) }
{
    let mut left = zeros;
    while left >= 64 {
        out.put(0, 64);
        left -= 64;
    }
    out.put(1, left + 1);
}

/// Writes codes as they are, in `width` bits each.
pub(crate) fn write_plain(codes: &[u32], width: u32, out: &mut BitWriter)
    requires width { width ≤ 32 }
    requires fit { All (λ code. code < 2 ^ width) codes.now }
    requires room { length (all_bits (bits_of width) codes.now) ≤ out.old.spare }
    ensures { AddsBits out.old out.new (all_bits (bits_of width) codes.now) }
{
    for code in codes {
        out.put(u64::from(*code), width);
    }
}

/// Writes codes in pairs, each by its number.
pub(crate) fn write_pairs(codes: &[u32], out: &mut BitWriter)
    requires pairs { length codes.now % 2 ≡ 0 }
    requires small { All (λ code. code < 2 ^ 15) codes.now }
    requires room { length (all_bits sequence (pair_numbers codes.now)) ≤ out.old.spare }
    ensures { AddsBits out.old out.new (all_bits sequence (pair_numbers codes.now)) }
{
    for pair in 0..codes.len() / 2 {
        let second = codes[2 * pair + 1];
        let sum = codes[2 * pair] + second;
        write_sequence(sum * (sum + 1) / 2 + second, out);
    }
}

/// Writes what codes are divided by 2 to `k`.
pub(crate) fn write_high(codes: &[u32], k: u32, out: &mut BitWriter)
    requires k { k < 32 }
    requires room { length (all_bits sequence (highs k codes.now)) ≤ out.old.spare }
    ensures { AddsBits out.old out.new (all_bits sequence (highs k codes.now)) }
{
    for code in codes {
        write_sequence(*code >> k, out);
    }
}

/// Writes the last `k` bits of codes.
pub(crate) fn write_low(codes: &[u32], k: u32, out: &mut BitWriter)
    requires k { k < 32 }
    requires room { length (all_bits (bits_of k) (lows k codes.now)) ≤ out.old.spare }
    ensures { AddsBits out.old out.new (all_bits (bits_of k) (lows k codes.now)) }
{
    for code in codes {
        out.put(u64::from(*code & ((1 << k) - 1)), k);
    }
}
