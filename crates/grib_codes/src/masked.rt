//! Words of codes at the points that a mask has.

ghost use Rattle.std.specs.Prelude.{◌≡◌, ◌++◌, List, length, map, replicate, IfOk, OnOk};
ghost use Rattle.grib_bitmap.specs.Mask.{present_count};
ghost use Rattle.grib_packing.specs.declared.column.Point as point_io;
ghost use Rattle.grib_packing.specs.Column.{points_with_mask};
ghost use Rattle.grib_codes.specs.KeptWords.{AreWords, word_for};

use crate::point_words::PointWords;
use grib_bitmap::Mask;
use std::alloc::{AllocError, Global};

impl PointWords {
    /// The words of all points of a mask, from those of its present points: a point that it leaves out is primary missing.
    ///
    /// # Errors
    ///
    /// There is no memory for the words.
    pub fn with_mask(self, alloc: Global, mask: &Mask) -> Result<PointWords, AllocError>
        requires { present_count mask.now ≡ length self.words.items }
        ensures { IfOk result (λ all. (entries : List point_io.Point) → AreWords entries self
            → AreWords (points_with_mask mask.now entries) all) }
    {
        if self.words.len() == mask.len() as usize {
            return Ok(self);
        }
        let words = masked_words(alloc, mask, &self.words)?;
        Ok(PointWords {
            words,
            management: self.management.max(1),
            greatest: self.greatest,
        })
    }
}

/// The words of all points of a mask, from those of its present points.
///
/// # Errors
///
/// There is no memory for the words.
fn masked_words(alloc: Global, mask: &Mask, words: &[u32]) -> Result<Vec<u32>, AllocError>
    requires { present_count mask.now ≡ length words.now }
    ensures { IfOk result (λ all. (entries : List point_io.Point) → words.now ≡ map word_for entries
        → all.items ≡ map word_for (points_with_mask mask.now entries)) }
{
    let mut all = Vec::with_capacity(alloc, mask.len() as usize)?;
    let mut place = 0;
    let mut taken = 0;
    while place < mask.len() {
        let run = mask.run(place);
        if run.present {
            let next = taken + run.length as usize;
            all.extend_from_slice(&words[taken..next])?;
            taken = next;
        } else {
            push_missing(&mut all, run.length)?;
        }
        place += run.length;
    }
    Ok(all)
}

/// Adds the words of this many points that are primary missing.
fn push_missing(words: &mut Vec<u32>, count: u32) -> Result<(), AllocError>
    ensures { OnOk result (words.new.items ≡ words.old.items ++ replicate count 4294967295) }
{
    words.resize(words.len() + count as usize, u32::MAX)
}
