//! How far a Section 7 was read that comes in pieces, by its packing.

ghost use Rattle.std.specs.Prelude.{◌≡◌, ℕ, ◌+◌, ◌≤◌, None, Some, List, [], ◌++◌, length as length_of, drop, IfOk, MatchResult};
ghost use Rattle.grib_base.specs.Rules.{located};
ghost use Rattle.grib_packing.specs.Entries.{data_fault, entries_of};
ghost use Rattle.grib_packing.specs.Packing.{value_count};
ghost use Rattle.grib_complex_reading.specs.Feeding.{AreOctets};
ghost use Rattle.grib_packings.specs.Field.{Represents};
ghost use Rattle.grib_packings.specs.Reading.{IsFedReading, IsWholeReading, ReadingAgrees};

use crate::coded_reading::CodedReading;
use crate::representation::Representation;
use crate::simple_reading::SimpleReading;
use grib_base::Fault;
use grib_complex_reading::ComplexReading;
use grib_packing::Keeper;
use std::alloc::{AllocError, Global};

/// How far a Section 7 was read, by its packing.
#[derive(Debug, Drop)]
pub(crate) enum Reading<K> {
    Simple(SimpleReading<K>),
    Complex(ComplexReading<K>),
    Coded(CodedReading<K>),
}

impl<K: Keeper + Drop> Reading<K> {
    /// Before the first octet of a Section 7 of `length` octets that begins at octet `start` of the message.
    pub fn start(
        alloc: Global,
        representation: &Representation,
        keeper: K,
        start: u64,
        length: u32,
    ) -> Result<Reading<K>, AllocError>
        requires read { (s5 : List ℕ) × Represents representation.now s5 }
        requires low { 1 ≤ start }
        requires high { start ≤ 268435456 }
        requires least { 5 ≤ length }
        ensures { (s5 : List ℕ) → Represents representation.now s5
            → IfOk result (ReadingAgrees K.kept s5 keeper start length []) }
    {
        match representation {
            Representation::Simple(simple) => {
                let reading = SimpleReading::start(alloc, *simple, keeper, start, length);
                Ok(Reading::Simple(reading))
            }
            Representation::Complex(complex) => {
                let reading = ComplexReading::start(alloc, *complex, keeper, start, length)?;
                Ok(Reading::Complex(reading))
            }
            Representation::Coded(coded) => Ok(Reading::Coded(CodedReading::start(*coded, keeper))),
        }
    }

    /// Reads the next octets, where this many came before.
    pub fn push(
        self,
        alloc: Global,
        piece: &[u8],
        before: u32,
        start: u64,
        length: u32,
    ) -> Reading<K>
        requires fed { IsFedReading K.kept start length before self }
        requires within { 5 + before + length_of piece.now ≤ length }
        ensures { (s5 : List ℕ) (keeper : _) (octets : List ℕ) → length_of octets ≡ before → AreOctets octets → ReadingAgrees K.kept s5 keeper start length octets self
            → ReadingAgrees K.kept s5 keeper start length (octets ++ piece.now) result }
    {
        match self {
            Reading::Simple(reading) => Reading::Simple(reading.push(piece)),
            Reading::Complex(reading) => {
                Reading::Complex(reading.push(alloc, piece, before, start, length))
            }
            Reading::Coded(reading) => Reading::Coded(reading.push(piece)),
        }
    }

    /// What has kept the points, once all octets came of a Section 7 of `length` octets that begins at octet `start` of
    /// the message.
    ///
    /// # Errors
    ///
    /// Section 7 is refused by the first rule of the profile that fails.
    pub fn end(self, start: u64, length: u32) -> Result<K, Fault>
        requires { IsWholeReading K.kept start length self }
        ensures { (s5 : List ℕ) (keeper : _) (s7 : List ℕ) → length_of s7 ≡ length → AreOctets (drop 5 s7) → ReadingAgrees K.kept s5 keeper start (length_of s7) (drop 5 s7) self
            → MatchResult result
            (λ after. (data_fault s5 s7 ≡ None) × K.kept keeper (entries_of s5 s7) after × (length_of (entries_of s5 s7) ≡ value_count s5))
            (λ fault. located start (data_fault s5 s7) ≡ Some fault) }
    {
        match self {
            Reading::Simple(reading) => reading.end(),
            Reading::Complex(reading) => reading.end(start),
            Reading::Coded(reading) => reading.end(start, length),
        }
    }
}
