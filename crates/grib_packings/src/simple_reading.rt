//! How far a Section 7 in simple packing was read that comes in pieces.

ghost use Rattle.std.specs.Prelude.{◌≡◌, ℕ, ◌^◌, ◌<◌, ◌≤◌, None, Some, List, [], ◌++◌, length as length_of, drop, MatchResult};
ghost use Rattle.grib_base.specs.Rules.{located};
ghost use Rattle.grib_packing.specs.Entries.{data_fault, entries_of};
ghost use Rattle.grib_packing.specs.Packing.{packing_template, value_count};
ghost use Rattle.grib_packing.specs.Representation.{Spelled};
ghost use Rattle.grib_complex_reading.specs.Feeding.{AreOctets};
ghost use Rattle.grib_packings.specs.Reading.{IsFedSimply, SimpleAgrees};

use grib_base::{Fault, Reason};
use grib_complex_reading::PlainValues;
use grib_group_reading::Fed;
use grib_packing::{Keeper, Simple};
use grib_simple_reading::is_too_short;
use std::alloc::Global;

/// How far a Section 7 in simple packing was read (WMO-No. 306, Volume I.2, FM 92 GRIB edition 2, data template
/// 7.0).
#[derive(Debug, Drop)]
pub(crate) enum SimpleReading<K> {
    /// Packed numbers come, which are the scaled integers themselves.
    Reads(Fed<PlainValues<K>>),
    /// No rule of the profile fails, whatever comes, and no points are kept.
    Passes(K),
    /// The section is too short.
    Refused(Fault, K),
}

impl<K: Keeper + Drop> SimpleReading<K> {
    /// Before the first octet of a Section 7 of `length` octets that begins at octet `start` of the message. Numbers
    /// of no bits are handed on at once.
    pub fn start(
        alloc: Global,
        simple: Simple,
        keeper: K,
        start: u64,
        length: u32,
    ) -> SimpleReading<K>
        requires low { 1 ≤ start }
        requires high { start ≤ 268435456 }
        requires width { simple.bits ≤ 48 }
        ensures { (s5 : List ℕ) → Spelled simple s5 → packing_template s5 ≡ 0 → SimpleAgrees K.kept s5 keeper start length [] result }
    {
        if is_too_short(&simple, u64::from(length)) {
            let fault = Fault::at(start, Reason::DataTooShort, u64::from(length));
            return SimpleReading::Refused(fault, keeper);
        }
        if !keeper.keeps() {
            return SimpleReading::Passes(keeper);
        }
        let values = PlainValues { keeper };
        SimpleReading::Reads(Fed::list(alloc, simple.bits, simple.values, values).push(&[]))
    }

    /// Reads the next octets.
    pub fn push(self, piece: &[u8]) -> SimpleReading<K>
        requires fed { IsFedSimply K.kept self }
        requires short { length_of piece.now < 2 ^ 32 }
        ensures { (s5 : List ℕ) (keeper : _) (start l : ℕ) (octets : List ℕ) → SimpleAgrees K.kept s5 keeper start l octets self
            → SimpleAgrees K.kept s5 keeper start l (octets ++ piece.now) result }
    {
        match self {
            SimpleReading::Reads(fed) => SimpleReading::Reads(fed.push(piece)),
            SimpleReading::Passes(keeper) => SimpleReading::Passes(keeper),
            SimpleReading::Refused(fault, keeper) => SimpleReading::Refused(fault, keeper),
        }
    }

    /// What has kept the points, once all octets came.
    ///
    /// # Errors
    ///
    /// Section 7 is too short for its numbers.
    pub fn end(self) -> Result<K, Fault>
        requires { IsFedSimply K.kept self }
        ensures { (s5 : List ℕ) (keeper : _) (start : ℕ) (s7 : List ℕ) → AreOctets (drop 5 s7) → SimpleAgrees K.kept s5 keeper start (length_of s7) (drop 5 s7) self
            → MatchResult result
            (λ after. (data_fault s5 s7 ≡ None) × K.kept keeper (entries_of s5 s7) after × (length_of (entries_of s5 s7) ≡ value_count s5))
            (λ fault. located start (data_fault s5 s7) ≡ Some fault) }
    {
        match self {
            SimpleReading::Reads(fed) => Ok(fed.finish().keeper),
            SimpleReading::Passes(keeper) => Ok(keeper),
            SimpleReading::Refused(fault, _keeper) => Err(fault),
        }
    }
}
