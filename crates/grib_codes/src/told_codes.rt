//! The codes that the points of a field are packed by.

ghost use Rattle.std.specs.Prelude.{◌≡◌, ◌≤◌, true, EachIndex, IfSome, List, MatchOption, length, slice_index};
ghost use Rattle.grib_codes.specs.Words.{codes_of};
ghost use Rattle.grib_packing.specs.declared.column.Point as point_packing;
ghost use Rattle.grib_codes.specs.FieldCodes.{codes_in};
ghost use Rattle.grib_codes.specs.KeptWords.{AreWords, TellPoints, has_outside};

use crate::Codes;
use crate::field_codes::FieldCodes;
use crate::point_words::PointWords;
use crate::words::Words;

/// The codes of the points of a field, and the missing value management.
#[derive(Debug, Drop)]
pub struct ToldCodes {
    pub codes: FieldCodes,
    pub management: u8,
}

impl PointWords {
    /// The codes that these words stand for; none where a number is negative, or it and the reserved codes take more than
    /// 32 bits.
    pub fn told(self) -> Option<ToldCodes>
        requires some { 1 ≤ length self.words.items }
        requires most { length self.words.items ≤ 33554432 }
        requires words { (points : List point_packing.Point) × AreWords points self }
        ensures points { MatchOption result
            ((points : List point_packing.Point) → AreWords points self → has_outside points ≡ true)
            (λ told. (points : List point_packing.Point) → AreWords points self → TellPoints points told.management (codes_in told.codes)) }
        ensures long { IfSome result (λ told. length (codes_in told.codes) ≡ length self.words.items) }
    {
        let management = self.management;
        if self.greatest > u64::from(u32::MAX - u32::from(management)) {
            return None;
        }
        Some(ToldCodes {
            codes: field_codes(self.words, management),
            management,
        })
    }
}

/// The codes that these words stand for.
fn field_codes(words: Vec<u32>, management: u8) -> FieldCodes
    requires some { 1 ≤ length words.items }
    requires most { length words.items ≤ 33554432 }
    requires few { management ≤ 2 }
    ensures { codes_in result ≡ codes_of management words.items }
{
    let first = words[0];
    if are_all(&words, first) {
        let code = Codes::of(&words, u32::from(management)).at(0);
        return FieldCodes::Same(code, words.len() as u32);
    }
    FieldCodes::Each(Words::of(words, management))
}

/// Whether each of these words is this one.
fn are_all(words: &[u32], word: u32) -> bool
    ensures { result ≡ true → EachIndex words.now (λ k. slice_index words.now k ≡ word) }
{
    words.iter().all(|other| *other == word)
}
