//! A Section 7 of which the rules are tried as its octets come.

ghost use Rattle.std.specs.Prelude.{◌≡◌, ℕ, ◌+◌, ◌≤◌, None, Some, List, [], ◌++◌, length as length_of, drop, IfOk, MatchResult};
ghost use Rattle.grib_base.specs.Rules.{located};
ghost use Rattle.grib_packing.specs.Entries.{data_fault};
ghost use Rattle.grib_packings.specs.Field.{IsDataOf};
ghost use Rattle.grib2_arrival.specs.Fed.{DataAgrees, HasAll, MayBeFed};

use grib_base::Fault;
use grib_packing::Nothing;
use grib_packings::{DataRepresentation, Feeding};
use std::alloc::{AllocError, Global};

/// Tries the rules of a Section 7 as its octets come, and keeps none of its values.
#[derive(Debug, Drop)]
pub(crate) enum Data {
    /// Its values are read.
    Reads(Feeding<Nothing>),
    /// Its packing is opaque, and no rule asks for its octets: this many are still to come.
    Passes(u32),
}

impl Data {
    /// No octet came yet of a Section 7 of `length` octets that begins at octet `start` of the message, of a field
    /// of which Section 5 says this.
    pub fn start(
        alloc: Global,
        representation: &DataRepresentation,
        start: u64,
        length: u32,
    ) -> Result<Data, AllocError>
        requires read { (s5 : List ℕ) × IsDataOf representation.now s5 }
        requires low { 1 ≤ start }
        requires high { start ≤ 268435456 }
        requires least { 5 ≤ length }
        ensures { (s5 : List ℕ) → IsDataOf representation.now s5
            → IfOk result (DataAgrees s5 start length []) }
    {
        match representation {
            DataRepresentation::Read(representation) => {
                let feeding = Feeding::start(alloc, representation, Nothing, start, length)?;
                Ok(Data::Reads(feeding))
            }
            DataRepresentation::Opaque(_) => Ok(Data::Passes(length - 5)),
        }
    }

    /// How many octets are still to come.
    pub fn left(&self) -> u32
        ensures { (s5 : List ℕ) (start l : ℕ) (octets : List ℕ) → DataAgrees s5 start l octets self.now
            → 5 + length_of octets + result ≡ l }
    {
        match self {
            Data::Reads(feeding) => feeding.left(),
            Data::Passes(left) => *left,
        }
    }

    /// Reads the next octets of the section, no more than are still to come.
    pub fn push(self, piece: &[u8]) -> Data
        requires { MayBeFed (length_of piece.now) self }
        ensures { (s5 : List ℕ) (start l : ℕ) (octets : List ℕ) → DataAgrees s5 start l octets self
            → DataAgrees s5 start l (octets ++ piece.now) result }
    {
        match self {
            Data::Reads(feeding) => {
                let mut feeding = feeding;
                feeding.push(piece);
                Data::Reads(feeding)
            }
            Data::Passes(left) => Data::Passes(left - piece.len() as u32),
        }
    }

    /// Whether the section is refused, once all its octets came.
    pub fn finish(self) -> Result<(), Fault>
        requires { HasAll self }
        ensures { (s5 : List ℕ) (start : ℕ) (s7 : List ℕ) → 5 ≤ length_of s7 → DataAgrees s5 start (length_of s7) (drop 5 s7) self
            → MatchResult result (λ _. data_fault s5 s7 ≡ None)
            (λ fault. located start (data_fault s5 s7) ≡ Some fault) }
    {
        match self {
            Data::Reads(feeding) => match feeding.end() {
                Ok(_) => Ok(()),
                Err(fault) => Err(fault),
            },
            Data::Passes(_) => Ok(()),
        }
    }
}
