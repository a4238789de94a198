//! The words of codes of points, as these come.

ghost use Rattle.std.specs.Prelude.{◌≡◌, ◌*◌, ◌≤◌, ◌∷◌, [], length, map, pos, IfOk, vec_capacity};
ghost use Rattle.grib_bits.specs.Bits.{bits as bits_in};
ghost use Rattle.grib_bits.specs.Plain.{plain};
ghost use Rattle.grib_packing.specs.declared.column.Point.TheVariants.{Scaled};
ghost use Rattle.grib_packing.specs.Misfits.{management_of};
ghost use Rattle.grib_codes.specs.KeptWords.{AreWords, WordsKept, reach_of, word_for, words-none, words-more};

use grib_packing::{Keeper, Point, push_in_room};
use grib_simple_reading::number_words;
use std::alloc::{AllocError, Global};

/// The words of the codes of points, one after another: the number itself, or a mark, all bits set for primary missing and
/// one less for secondary. How many codes are reserved is known when all points came.
#[derive(Debug, Drop)]
pub struct PointWords {
    pub words: Vec<u32>,
    /// How many codes these points reserve: the missing value management (code table 5.5).
    pub management: u8,
    /// The greatest number, or all bits set where one is negative. Of numbers of 31 bits at most it may be greater.
    pub greatest: u64,
}

/// What is told of one point.
#[derive(Debug, Drop)]
struct PointWord {
    word: u32,
    management: u8,
    greatest: u64,
}

impl PointWords {
    /// No words yet, and room for this many.
    ///
    /// # Errors
    ///
    /// There is no memory for the words.
    pub fn start(alloc: Global, count: u32) -> Result<PointWords, AllocError>
        ensures are { IfOk result (AreWords []) }
        ensures room { IfOk result (λ none. count ≤ vec_capacity none.words) }
    {
        let words = Vec::with_capacity(alloc, count as usize)?;
        Ok(PointWords {
            words,
            management: 0,
            greatest: 0,
        })
    }

    /// The words of these points.
    ///
    /// # Errors
    ///
    /// There is no memory for the words.
    pub fn of(alloc: Global, points: &[Point]) -> Result<PointWords, AllocError>
        requires { length points.now ≤ 33554432 }
        ensures { IfOk result (AreWords points.now) }
    {
        let mut kept = PointWords::start(alloc, points.len() as u32)?;
        for point in points {
            kept = kept.keep(*point);
        }
        Ok(kept)
    }

    /// The words of as many points as there are numbers of 1 to 31 bits each, which stand one after another: each is its
    /// number, and no point is missing.
    ///
    /// # Errors
    ///
    /// There is no memory for the words.
    pub fn of_numbers(
        alloc: Global,
        octets: &[u8],
        bits: u32,
        count: u32,
    ) -> Result<PointWords, AllocError>
        requires some { 1 ≤ bits }
        requires bits { bits ≤ 31 }
        requires within { bits * count ≤ 8 * length octets.now }
        ensures { IfOk result (AreWords (map (λ x. Scaled (pos x)) (plain (bits_in octets.now) bits count))) }
    {
        let words = number_words(alloc, octets, bits, count)?;
        Ok(PointWords {
            words,
            management: 0,
            greatest: (1 << 31) - 1,
        })
    }
}

impl Keeper for PointWords {
    ghost kept = { WordsKept };

    ghost room = { λ _. 4294967295 };

    #[inline(always)]
    fn room(&self) -> u32 {
        u32::MAX
    }

    #[inline(always)]
    fn keep(self, point: Point) -> PointWords {
        let mut kept = self;
        let told = told(point);
        kept.management = told.management.max(kept.management);
        kept.greatest = kept.greatest.max(told.greatest);
        push_in_room(&mut kept.words, told.word);
        kept
    }

    #[inline(always)]
    fn keep_within(self, point: Point) -> PointWords {
        self.keep(point)
    }

    ghost none = { words-none };

    ghost more = { words-more };
}

/// The word of a point, and how many codes it reserves alone.
#[inline(always)]
fn told(point: Point) -> PointWord
    ensures word { result.word ≡ word_for point }
    ensures management { result.management ≡ management_of (point ∷ []) }
    ensures greatest { result.greatest ≡ reach_of point }
{
    match point {
        Point::Scaled(x) => told_number(x),
        Point::Missing => PointWord {
            word: u32::MAX,
            management: 1,
            greatest: 0,
        },
        Point::Missing2 => PointWord {
            word: u32::MAX - 1,
            management: 2,
            greatest: 0,
        },
    }
}

/// The word of a scaled integer.
#[inline(always)]
fn told_number(x: i64) -> PointWord
    ensures word { result.word ≡ word_for (Scaled x) }
    ensures management { result.management ≡ 0 }
    ensures greatest { result.greatest ≡ reach_of (Scaled x) }
{
    let greatest = if x < 0 { u64::MAX } else { x.unsigned_abs() };
    PointWord {
        word: if greatest > u64::from(u32::MAX) {
            0
        } else {
            greatest as u32
        },
        management: 0,
        greatest,
    }
}
