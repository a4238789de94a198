//! Which grid points are present.

ghost use Rattle.std.specs.Prelude.{◌≡◌, ◌≢◌, ◌+◌, ◌*◌, ◌%◌, ◌<◌, ◌≤◌, ◌++◌, length, take as first, drop, replicate, slice_get, Some, true, false, IfOk};
ghost use Rattle.grib_bits.specs.Bits.{bits};
ghost use Rattle.grib_bits.specs.Written.{padding};
ghost use Rattle.grib_bitmap.specs.Mask.{present_count};

use crate::words::{octet_words, ones_words, same_bits};
use grib_bits::BitWriter;
use std::alloc::{AllocError, Global};
use std::marker::Model;

/// Which of the grid points are present, one bit for each point. A clause sees a list of truth values.
#[derive(Debug, Drop)]
pub struct Mask {
    words: Vec<u64>,
    points: u32,
}

// Behind the last point there are zeros up to the end of a word.
impl Model for Mask {
    ghost use Rattle.std.specs.Prelude.{List, Bool, take};
    ghost use Rattle.grib_bitmap.specs.Words.{bits_of_words, HoldBits};

    ghost Value = { List Bool };

    ghost view = { λ mask. take mask.points (bits_of_words mask.words.items) };

    ghost invariant = { λ mask. HoldBits mask.words.items mask.points };
}

/// Points that follow one another, all present or all left out.
#[derive(Clone, Copy, Debug, PartialEq, Eq)]
pub struct Run {
    pub present: bool,
    /// How many points.
    pub length: u32,
}

impl Mask {
    /// A mask that leaves out none of this many points.
    pub fn all(alloc: Global, points: u32) -> Result<Mask, AllocError>
        ensures { IfOk result (λ mask. mask ≡ replicate points true) }
    {
        let words = ones_words(alloc, points)?;
        Ok(Mask { words, points })
    }

    /// The first bits of these octets, one for each point.
    ///
    /// # Errors
    ///
    /// There is no memory for the mask.
    pub fn of_octets(alloc: Global, octets: &[u8], points: u32) -> Result<Mask, AllocError>
        requires { points ≤ 8 * length octets.now }
        ensures { IfOk result (λ mask. mask ≡ first points (bits octets.now)) }
    {
        let words = octet_words(alloc, octets, points)?;
        Ok(Mask { words, points })
    }

    /// A copy of the mask.
    pub fn copy(&self, alloc: Global) -> Result<Mask, AllocError>
        ensures { IfOk result (λ mask. mask ≡ self.now) }
    {
        let words = self.words.as_slice().to_vec(alloc)?;
        Ok(Mask {
            words,
            points: self.points,
        })
    }

    /// How many grid points there are.
    #[inline]
    pub fn len(&self) -> u32
        ensures { result ≡ length self.now }
    {
        self.points
    }

    /// Whether the point at this place is present. Places count from 0.
    #[inline]
    pub fn get(&self, place: u32) -> bool
        requires { place < length self.now }
        ensures { slice_get self.now place ≡ Some result }
    {
        let word = self.words[(place / 64) as usize];
        word >> (63 - place % 64) & 1 == 1
    }

    /// The longest run that begins at this place. Places count from 0.
    pub fn run(&self, from: u32) -> Run
        requires { from < length self.now }
        ensures some { 1 ≤ result.length }
        ensures within { from + result.length ≤ length self.now }
        ensures same { drop from self.now
            ≡ replicate result.length result.present ++ drop (from + result.length) self.now }
        ensures longest { slice_get self.now (from + result.length) ≢ Some result.present }
    {
        let present = self.get(from);
        let mut end = u64::from(from);
        while end < u64::from(self.points) {
            let skip = (end % 64) as u32;
            let same = same_bits(self.words[(end / 64) as usize], skip, present);
            end += u64::from(same);
            if skip + same < 64 {
                break;
            }
        }
        let length = end.min(u64::from(self.points)) as u32 - from;
        Run { present, length }
    }
}

/// How many points are present.
pub fn ones(mask: &Mask) -> u32
    ensures { result ≡ present_count mask.now }
{
    let mut ones = 0u64;
    for word in &mask.words {
        ones += u64::from(word.count_ones());
    }
    ones as u32
}

/// Writes a bit for each point, 1 for those that are present, and zero bits up to a whole octet (WMO-No.
/// 306, Volume I.2, FM 92 GRIB edition 2, Section 6, from octet 7 on).
pub fn write_mask(mask: &Mask, out: &mut BitWriter)
    requires whole { length out.old.bits % 8 ≡ 0 }
    requires room { length mask.now + padding mask.now ≤ out.old.spare }
    ensures bits { out.new.bits ≡ out.old.bits ++ (mask.now ++ replicate (padding mask.now) false) }
    ensures spare { out.new.spare + (length mask.now + padding mask.now) ≡ out.old.spare }
{
    let whole = mask.points / 64;
    for index in 0..whole {
        out.put(mask.words[index as usize], 64);
    }
    let rest = mask.points % 64;
    if rest > 0 {
        out.put(mask.words[whole as usize] >> (64 - rest), rest);
    }
    out.align();
}
