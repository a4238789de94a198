//! Numbers of one width, each alone or in a word of 32 bits.

ghost use Rattle.std.specs.Prelude.{◌≡◌, ◌+◌, ◌*◌, ◌^◌, ◌<◌, ◌≤◌, length, IfOk};
ghost use Rattle.grib_bits.specs.Bits.{bits as bits_in};
ghost use Rattle.grib_bits.specs.Plain.{plain, plain_at};

use grib_bits::{get_bits, number_in_word};
use std::alloc::{AllocError, Global};

/// Numbers of 1 to 31 bits each that stand one after another, 32 bits for each.
///
/// # Errors
///
/// There is no memory for the numbers.
pub fn number_words(
    alloc: Global,
    octets: &[u8],
    bits: u32,
    count: u32,
) -> Result<Vec<u32>, AllocError>
    requires some { 1 ≤ bits }
    requires bits { bits ≤ 31 }
    requires within { bits * count ≤ 8 * length octets.now }
    ensures { IfOk result (λ words. words.items ≡ plain (bits_in octets.now) bits count) }
{
    let mut words = Vec::with_capacity(alloc, count as usize)?;
    for index in 0..count {
        words.push(number_at(octets, bits, index) as u32)?;
    }
    Ok(words)
}

/// The number at a place, counted from 0, of numbers of as many bits each.
#[inline(always)]
pub fn number_at(octets: &[u8], bits: u32, place: u32) -> u64
    requires some { 1 ≤ bits }
    requires bits { bits ≤ 48 }
    requires within { place * bits + bits ≤ 8 * length octets.now }
    ensures number { result ≡ plain_at (bits_in octets.now) bits place }
    ensures fits { result < 2 ^ bits }
{
    let at = u64::from(place) * u64::from(bits);
    if (at / 8) as usize + 8 <= octets.len() {
        number_in_word(octets, at, bits)
    } else {
        get_bits(octets, at, bits)
    }
}
