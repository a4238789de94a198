//! Bits that are left to be read.

ghost use Rattle.std.specs.Prelude.{◌≡◌, ℕ, ◌+◌, ◌*◌, ◌%◌, ◌^◌, ◌<◌, ◌≤◌, length, drop, MatchOption, IfSome};
ghost use Rattle.grib_bits.specs.Bits.{bits as bits_in};
ghost use Rattle.grib_coding.specs.Reading.{front_number, front_sequence, Found, Ended};
ghost use Rattle.grib_block_reading.specs.Fronts.{front_of, IsAhead};

use grib_bits::get_bits;
use std::marker::Model;

/// The number of the next bits that are left, so many of them. Its ones are found with no look at the octets.
#[derive(Clone, Copy, Debug)]
pub(crate) struct Ahead {
    pub(crate) word: u64,
    pub(crate) count: u32,
}

/// The bits of some octets from a place on. A clause sees them.
#[derive(Debug, Drop)]
pub struct BitsLeft<'a> {
    octets: &'a [u8],
    at: u64,
}

impl<'a> Model for BitsLeft<'a> {
    ghost use Rattle.std.specs.Prelude.{List, Bool, ◌*◌, ◌^◌, ◌<◌, ◌≤◌, length, drop};
    ghost use Rattle.grib_bits.specs.Bits.{bits as bits_in};

    ghost Value = { List Bool };

    ghost view = { λ left. drop left.at (bits_in left.octets.now) };

    ghost invariant = { λ left. (left.at ≤ 8 * length left.octets.now) × (length left.octets.now < 2 ^ 32) };
}

impl<'a> BitsLeft<'a> {
    /// The bits of `octets` after the first `at` ones.
    #[inline]
    pub fn after(octets: &'a [u8], at: u64) -> BitsLeft<'a>
        requires short { length octets.now < 2 ^ 32 }
        requires within { at ≤ 8 * length octets.now }
        ensures { result ≡ drop at (bits_in octets.now) }
    {
        BitsLeft { octets, at }
    }

    /// How many bits are left.
    #[inline]
    pub fn len(&self) -> u64
        ensures { result ≡ length self.now }
    {
        8 * self.octets.len() as u64 - self.at
    }

    /// The number of the next `width` bits.
    #[inline]
    pub fn number(&mut self, width: u32) -> Option<u64>
        requires { width ≤ 64 }
        ensures found { front_number width self.old ≡ front_of result self.new }
        ensures fits { IfSome result (λ number. number < 2 ^ width) }
    {
        let end = self.at + u64::from(width);
        if end > 8 * self.octets.len() as u64 {
            return None;
        }
        let number = get_bits(self.octets, self.at, width);
        self.at = end;
        Some(number)
    }

    /// How many zero bits stand before the next one bit; both are skipped.
    #[inline]
    pub fn sequence(&mut self) -> Option<u64>
        ensures found { front_sequence self.old ≡ front_of result self.new }
        ensures short { IfSome result (λ number. number < 2 ^ 35) }
    {
        let zeros = zeros_from(self.octets, self.at)?;
        self.at += zeros + 1;
        Some(zeros)
    }

    /// The next bits, as many as a word surely holds.
    #[inline]
    fn ahead(&self) -> Ahead
        ensures { IsAhead result self.now }
    {
        let count = self.len().min(56) as u32;
        Ahead {
            word: get_bits(self.octets, self.at, count),
            count,
        }
    }

    /// How many zero bits stand before the next one bit; both are skipped, also of the bits `ahead`.
    #[inline(always)]
    pub(crate) fn next_sequence(&mut self, ahead: &mut Ahead) -> Option<u64>
        requires { IsAhead ahead.old self.old }
        ensures found { front_sequence self.old ≡ front_of result self.new }
        ensures short { IfSome result (λ number. number < 2 ^ 35) }
        ensures ahead { IfSome result (λ _. IsAhead ahead.new self.new) }
    {
        if ahead.word == 0 {
            let zeros = self.sequence()?;
            *ahead = self.ahead();
            return Some(zeros);
        }
        let zeros = ahead.word.leading_zeros() + ahead.count - 64;
        ahead.count -= zeros + 1;
        ahead.word &= (1 << ahead.count) - 1;
        self.at += u64::from(zeros) + 1;
        Some(u64::from(zeros))
    }

    /// Drops the next bits up to a whole number of octets.
    #[inline]
    pub fn drop_to_octet(&mut self)
        ensures { self.new ≡ drop (length self.old % 8) self.old }
    {
        self.at = self.at.div_ceil(8) * 8;
    }
}

/// How many zero bits stand before the first one bit after the first `at` bits.
#[inline]
fn zeros_from(octets: &[u8], at: u64) -> Option<u64>
    requires short { length octets.now < 2 ^ 32 }
    requires within { at ≤ 8 * length octets.now }
    ensures { MatchOption result (front_sequence (drop at (bits_in octets.now)) ≡ Ended)
        (λ zeros. (front_sequence (drop at (bits_in octets.now)) ≡ Found zeros (drop (at + zeros + 1) (bits_in octets.now))) × (at + zeros + 1 ≤ 8 * length octets.now)) }
{
    let end = 8 * octets.len() as u64;
    let mut place = at;
    while place < end {
        let width = (end - place).min(56) as u32;
        let word = get_bits(octets, place, width);
        if word != 0 {
            let zeros = word.leading_zeros() + width - 64;
            return Some(place - at + u64::from(zeros));
        }
        place += u64::from(width);
    }
    None
}
