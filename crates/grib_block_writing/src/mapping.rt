//! The codes of numbers.

ghost use Rattle.std.specs.Prelude.{◌≡◌, ◌≤◌, All, length};
ghost use Rattle.grib_coding.specs.Mapped.{mapped, codes_after};

/// The code of `number` after the number `before`, where no number is above `most`.
#[inline(always)]
pub fn map(most: u32, before: u32, number: u32) -> u32
    requires before { before ≤ most }
    requires number { number ≤ most }
    ensures is { result ≡ mapped most before number }
    ensures within { result ≤ most }
{
    let reach = before.min(most - before);
    let distance = before.abs_diff(number);
    if distance > reach {
        reach + distance
    } else if before <= number {
        distance * 2
    } else {
        distance * 2 - 1
    }
}

/// The codes of numbers one after another, the first after the number `before`.
#[inline]
pub fn map_block(numbers: &[u32], most: u32, before: u32, codes: &mut [u32])
    requires before { before ≤ most }
    requires numbers { All (λ number. number ≤ most) numbers.now }
    requires room { length codes.old ≡ length numbers.now }
    ensures codes { codes.new ≡ codes_after most before numbers.now }
    ensures within { All (λ code. code ≤ most) codes.new }
{
    let mut before = before;
    for (place, number) in numbers.iter().enumerate() {
        codes[place] = map(most, before, *number);
        before = *number;
    }
}
