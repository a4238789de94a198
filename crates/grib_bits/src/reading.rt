//! Numbers at octets of a section as the manual counts them, from 1.

ghost use Rattle.std.specs.Prelude.{◌≡◌, ◌+◌, ◌-◌, ◌≤◌, length};
ghost use Rattle.grib_bits.specs.Bits.{bit};
ghost use Rattle.grib_bits.specs.Octets.{octets as octets_of};

use byteorder::{BigEndian, ByteOrder};

/// Octet `place`.
#[inline]
pub fn u8_at(octets: &[u8], place: usize) -> u8
    requires counted { 1 ≤ place }
    requires within { place ≤ length octets.now }
    ensures { result ≡ octets_of octets.now place place }
{
    octets[place - 1]
}

/// The number of the two octets from `first` on.
#[inline]
pub fn u16_at(octets: &[u8], first: usize) -> u16
    requires counted { 1 ≤ first }
    requires within { first + 1 ≤ length octets.now }
    ensures { result ≡ octets_of octets.now first (first + 1) }
{
    BigEndian::read_u16(&octets[first - 1..])
}

/// The number of the four octets from `first` on.
#[inline]
pub fn u32_at(octets: &[u8], first: usize) -> u32
    requires counted { 1 ≤ first }
    requires within { first + 3 ≤ length octets.now }
    ensures { result ≡ octets_of octets.now first (first + 3) }
{
    BigEndian::read_u32(&octets[first - 1..])
}

/// The number of the `size` octets from `first` on.
#[inline]
pub fn uint_at(octets: &[u8], first: usize, size: usize) -> u32
    requires counted { 1 ≤ first }
    requires some { 1 ≤ size }
    requires word { size ≤ 4 }
    requires within { first + size ≤ length octets.now + 1 }
    ensures { result ≡ octets_of octets.now first (first + size - 1) }
{
    BigEndian::read_uint(&octets[first - 1..], size) as u32
}

/// Bit `number` of an octet, bit 1 being the most significant.
#[inline]
pub fn has_bit(octet: u8, number: u32) -> bool
    requires low { 1 ≤ number }
    requires high { number ≤ 8 }
    ensures { result ≡ bit number octet }
{
    octet >> (8 - number) & 1 == 1
}
