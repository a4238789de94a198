//! Fields of bits that stand anywhere in octets.

ghost use Rattle.std.specs.Prelude.{◌≡◌, ◌+◌, ◌*◌, ◌/◌, ◌^◌, ◌<◌, ◌≤◌, ◌++◌, length, take, drop, replicate};
ghost use Rattle.grib_bits.specs.Bits.{bits, num};

use byteorder::{BigEndian, ByteOrder};

/// The number without sign in the `width` bits that follow the first `at` bits of `octets`, where
/// the first bit of an octet is its most significant (WMO-No. 306, Volume I.2, FM 92 GRIB). A field
/// of no bits is 0.
#[inline]
pub fn get_bits(octets: &[u8], at: u64, width: u32) -> u64
    requires word { width ≤ 64 }
    requires within { at + width ≤ 8 * length octets.now }
    ensures { result ≡ num (take width (drop at (bits octets.now))) }
{
    if width == 0 {
        return 0;
    }
    let rest = &octets[(at / 8) as usize..];
    let skip = (at % 8) as u32;
    let field = first_word(rest) << skip >> (64 - width);
    if skip + width <= 64 {
        return field;
    }
    // The last bits, at most seven, stand in a ninth octet.
    field | u64::from(rest[8]) >> (72 - skip - width)
}

/// The number of the `width` bits after the first `at` bits, from the eight octets that begin there.
#[inline(always)]
pub fn number_in_word(octets: &[u8], at: u64, width: u32) -> u64
    requires some { 1 ≤ width }
    requires width { width ≤ 48 }
    requires within { at / 8 + 8 ≤ length octets.now }
    ensures value { result ≡ num (take width (drop at (bits octets.now))) }
    ensures fits { result < 2 ^ 48 }
{
    let word = BigEndian::read_u64(&octets[(at / 8) as usize..]);
    word >> (64 - (at % 8) as u32 - width) & ((1 << width) - 1)
}

/// The number of the first eight octets, with zeros after the last.
#[inline]
fn first_word(octets: &[u8]) -> u64
    ensures { result ≡ num (bits (take 8 (octets.now ++ replicate 8 0))) }
{
    if octets.len() < 8 {
        return last_word(octets);
    }
    BigEndian::read_u64(octets)
}

/// The number where there are fewer than eight octets.
#[cold]
#[inline(never)]
fn last_word(octets: &[u8]) -> u64
    requires { length octets.now < 8 }
    ensures { result ≡ num (bits (take 8 (octets.now ++ replicate 8 0))) }
{
    let mut word = [0; 8];
    word[..octets.len()].copy_from_slice(octets);
    BigEndian::read_u64(&word)
}
