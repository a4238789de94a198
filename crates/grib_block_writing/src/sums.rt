//! Sums over a block.

ghost use Rattle.std.specs.Prelude.{◌≡◌, ◌+◌, ◌*◌, ◌%◌, ◌^◌, ◌<◌, ◌≤◌, length};
ghost use Rattle.grib_coding.specs.Items.{pair_number};
ghost use Rattle.grib_coding.specs.Choices.{high_sum, pair_sum};

/// The sum of codes divided by 2 to `k`, each rounded down.
#[inline]
pub fn high_sum_of(codes: &[u32], k: u32) -> u64
    requires few { length codes.now ≤ 64 }
    requires k { k < 32 }
    ensures is { result ≡ high_sum k codes.now }
    ensures small { result < 2 ^ 40 }
{
    let mut sum = 0;
    for code in codes {
        sum += u64::from(*code >> k);
    }
    sum
}

/// The sum of the numbers of pairs of codes, where the codes sum up to little.
#[inline]
pub fn pair_sum_of(codes: &[u32]) -> u64
    requires few { length codes.now ≤ 64 }
    requires pairs { length codes.now % 2 ≡ 0 }
    requires small { high_sum 0 codes.now < 2 ^ 16 }
    ensures is { result ≡ pair_sum codes.now }
    ensures small { result < 2 ^ 40 }
{
    let mut sum = 0;
    for pair in 0..codes.len() / 2 {
        sum += number_of_pair(codes[2 * pair], codes[2 * pair + 1]);
    }
    sum
}

/// The number of a pair.
#[inline(always)]
fn number_of_pair(first: u32, second: u32) -> u64
    requires { first + second < 2 ^ 16 }
    ensures is { result ≡ pair_number first second }
    ensures small { result < 2 ^ 33 }
{
    let both = u64::from(first + second);
    both * (both + 1) / 2 + u64::from(second)
}
