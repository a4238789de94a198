//! How far a Section 7 in CCSDS packing was read that comes in pieces.

ghost use Rattle.std.specs.Prelude.{◌≡◌, ℕ, ◌^◌, ◌<◌, None, Some, List, [], ◌++◌, length as length_of, drop, MatchResult};
ghost use Rattle.grib_base.specs.Rules.{located};
ghost use Rattle.grib_packing.specs.Entries.{data_fault, entries_of};
ghost use Rattle.grib_packing.specs.Packing.{value_count};
ghost use Rattle.grib_packings.specs.Field.{Represents};
ghost use Rattle.grib_packings.specs.declared.representation.Representation.TheVariants as Representation;
ghost use Rattle.grib_packings.specs.Reading.{CodedAgrees, IsFedCoded};

use grib_base::Fault;
use grib_block_feeding::{Coded, FedBlocks, fault_of_blocks, keep_zeros};
use grib_packing::Keeper;

/// How far a Section 7 in CCSDS packing was read (WMO-No. 306, Volume I.2, FM 92 GRIB edition 2, data template
/// 7.42).
#[derive(Debug, Drop)]
pub(crate) enum CodedReading<K> {
    /// Coded blocks come, whose numbers are the scaled integers themselves.
    Blocks(FedBlocks<K>),
    /// Numbers of no bits, which are all 0, were kept at once: no octet is looked at.
    Same(K),
}

impl<K: Keeper + Drop> CodedReading<K> {
    /// Before the first octet. Numbers of no bits are handed on at once.
    pub fn start(coded: Coded, keeper: K) -> CodedReading<K>
        requires { (s5 : List ℕ) × Represents (Representation.Coded coded) s5 }
        ensures { (s5 : List ℕ) → Represents (Representation.Coded coded) s5 → CodedAgrees K.kept s5 keeper [] result }
    {
        let values = coded.simple.values;
        if coded.simple.bits == 0 {
            return CodedReading::Same(keep_zeros(keeper, values));
        }
        CodedReading::Blocks(FedBlocks::start(&coded.coding, values, keeper))
    }

    /// Reads the next octets.
    pub fn push(self, piece: &[u8]) -> CodedReading<K>
        requires fed { IsFedCoded K.kept self }
        requires short { length_of piece.now < 2 ^ 32 }
        ensures { (s5 : List ℕ) (keeper : _) (octets : List ℕ) → CodedAgrees K.kept s5 keeper octets self
            → CodedAgrees K.kept s5 keeper (octets ++ piece.now) result }
    {
        match self {
            CodedReading::Blocks(fed) => CodedReading::Blocks(fed.push(piece)),
            CodedReading::Same(keeper) => CodedReading::Same(keeper),
        }
    }

    /// What has kept the points, once all octets came of a Section 7 of `length` octets that begins at octet `start` of
    /// the message.
    ///
    /// # Errors
    ///
    /// An item of Section 7 is at fault: the first one.
    pub fn end(self, start: u64, length: u32) -> Result<K, Fault>
        requires { IsFedCoded K.kept self }
        ensures { (s5 : List ℕ) (keeper : _) (s7 : List ℕ) → length_of s7 ≡ length → CodedAgrees K.kept s5 keeper (drop 5 s7) self
            → MatchResult result
            (λ after. (data_fault s5 s7 ≡ None) × K.kept keeper (entries_of s5 s7) after × (length_of (entries_of s5 s7) ≡ value_count s5))
            (λ fault. located start (data_fault s5 s7) ≡ Some fault) }
    {
        match self {
            CodedReading::Blocks(fed) => match fed.finish() {
                Ok(keeper) => Ok(keeper),
                Err(fault) => Err(fault_of_blocks(fault, start, u64::from(length))),
            },
            CodedReading::Same(keeper) => Ok(keeper),
        }
    }
}
