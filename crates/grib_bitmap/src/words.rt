//! Bits in words of 64, the first the most significant of the first word.

ghost use Rattle.std.specs.Prelude.{◌≡◌, ◌≢◌, ◌+◌, ◌-◌, ◌*◌, ◌%◌, ◌^◌, ◌<◌, ◌≤◌, ◌++◌, length, take, drop, replicate, slice_get, Some, true, false, vec_len, IfOk, OnOk};
ghost use Rattle.grib_bits.specs.Bits.{bits as bits_in, bits_of};
ghost use Rattle.grib_bitmap.specs.Words.{word_bits, bits_of_words, word_padding};

use byteorder::{BigEndian, ByteOrder};
use grib_bits::get_bits;
use std::alloc::{AllocError, Global};

/// Words of `count` ones.
pub fn ones_words(alloc: Global, count: u32) -> Result<Vec<u64>, AllocError>
    ensures { IfOk result (λ words. bits_of_words words.items
        ≡ replicate count true ++ replicate (word_padding count) false) }
{
    let mut words = Vec::with_capacity(alloc, count.div_ceil(64) as usize)?;
    for _whole in 0..count / 64 {
        words.push(u64::MAX)?;
    }
    let rest = count % 64;
    push_last(&mut words, (1 << rest) - 1, rest)?;
    Ok(words)
}

/// Words of the first `count` bits of these octets.
pub fn octet_words(alloc: Global, octets: &[u8], count: u32) -> Result<Vec<u64>, AllocError>
    requires { count ≤ 8 * length octets.now }
    ensures { IfOk result (λ words. bits_of_words words.items
        ≡ take count (bits_in octets.now) ++ replicate (word_padding count) false) }
{
    let mut words = Vec::with_capacity(alloc, count.div_ceil(64) as usize)?;
    let whole = count / 64;
    for index in 0..whole {
        words.push(BigEndian::read_u64(&octets[8 * index as usize..]))?;
    }
    let rest = count % 64;
    push_last(
        &mut words,
        get_bits(octets, 64 * u64::from(whole), rest),
        rest,
    )?;
    Ok(words)
}

/// Adds a word that begins with the last `count` bits of `bits`, unless there are none.
fn push_last(words: &mut Vec<u64>, bits: u64, count: u32) -> Result<(), AllocError>
    requires short { count < 64 }
    requires fits { bits < 2 ^ count }
    ensures { OnOk result (bits_of_words words.new.items
        ≡ bits_of_words words.old.items ++ (bits_of count bits ++ replicate ((64 - count) % 64) false)) }
{
    if count > 0 {
        words.push(bits << (64 - count))?;
    }
    Ok(())
}

/// How many bits after the first `skip` of a word are all `bit`.
#[inline]
pub fn same_bits(word: u64, skip: u32, bit: bool) -> u32
    requires { skip < 64 }
    ensures within { skip + result ≤ 64 }
    ensures same { drop skip (word_bits word) ≡ replicate result bit ++ drop (skip + result) (word_bits word) }
    ensures longest { slice_get (word_bits word) (skip + result) ≢ Some bit }
{
    let other = if bit { !word } else { word };
    (other << skip).leading_zeros().min(64 - skip)
}
