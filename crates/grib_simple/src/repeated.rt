//! One number that is written many times.

ghost use Rattle.std.specs.Prelude.{◌≡◌, ◌+◌, ◌*◌, ◌^◌, ◌<◌, ◌≤◌, ◌++◌, length, replicate};
ghost use Rattle.grib_bits.specs.Bits.{bits_of};
ghost use Rattle.grib_packing.specs.Packed.{fields};

use grib_bits::BitWriter;

/// Writes a number this many times, in this many bits each: as many at once as a word has room for.
pub fn put_same(number: u64, count: u32, bits: u32, out: &mut BitWriter)
    requires some { 1 ≤ bits }
    requires width { bits ≤ 48 }
    requires fits { number < 2 ^ bits }
    requires room { length (fields bits (replicate count number)) ≤ out.old.spare }
    ensures bits { out.new.bits ≡ out.old.bits ++ fields bits (replicate count number) }
    ensures spare { out.new.spare + length (fields bits (replicate count number)) ≡ out.old.spare }
{
    let at_once = 64 / bits;
    let word = repeated(number, at_once, bits);
    put_times(word, count / at_once, at_once * bits, out);
    put_times(number, count % at_once, bits, out);
}

/// A number this many times, as the last bits of a word.
fn repeated(number: u64, count: u32, bits: u32) -> u64
    requires width { bits ≤ 48 }
    requires fits { number < 2 ^ bits }
    requires room { count * bits ≤ 64 }
    ensures bits { bits_of (count * bits) result ≡ fields bits (replicate count number) }
    ensures fits { result < 2 ^ (count * bits) }
{
    let mut word = 0;
    for _time in 0..count {
        word = word << bits | number;
    }
    word
}

/// Writes a number this many times, in this many bits each, one after another.
fn put_times(number: u64, count: u32, bits: u32, out: &mut BitWriter)
    requires width { bits ≤ 64 }
    requires fits { number < 2 ^ bits }
    requires room { length (fields bits (replicate count number)) ≤ out.old.spare }
    ensures bits { out.new.bits ≡ out.old.bits ++ fields bits (replicate count number) }
    ensures spare { out.new.spare + length (fields bits (replicate count number)) ≡ out.old.spare }
{
    for _time in 0..count {
        out.put(number, bits);
    }
}
