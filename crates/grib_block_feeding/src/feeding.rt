//! Coded blocks whose octets come in pieces.

ghost use Rattle.std.specs.Prelude.{◌≡◌, ℕ, ◌+◌, ◌*◌, ◌^◌, ◌<◌, ◌≤◌, List, Bool, [], ◌∷◌, ◌++◌, length, drop, None, Some, MatchResult};
ghost use Rattle.grib_bits.specs.Bits.{bits as bits_in};
ghost use Rattle.grib_coding.specs.declared.coding.Coding.{Coding as coded_by};
ghost use Rattle.grib_coding.specs.Coding.{Fits};
ghost use Rattle.grib_coding.specs.Reading.{decoded, fault_of};
ghost use Rattle.grib_block_reading.specs.Kept.{AreKept};
ghost use Rattle.grib_block_feeding.specs.Feeding.{BlocksAgree, IsFedBlocks};

use crate::reading::{Reading, Stage};
use grib_block_reading::Kept;
use grib_coding::{BlockFault, Coding};
use grib_packing::Keeper;

/// Coded numbers, as their octets come, and what keeps their points (WMO-No. 306, Volume I.2, FM 92 GRIB edition 2,
/// data template 7.42).
#[derive(Debug, Drop)]
pub struct FedBlocks<K> {
    reading: Reading,
    kept: Kept<K>,
}

impl<K: Keeper + Drop> FedBlocks<K> {
    /// No octet came yet of `count` numbers that are coded so.
    pub fn start(coding: &Coding, count: u32, keeper: K) -> FedBlocks<K>
        requires fits { Fits coding.now }
        requires few { count ≤ 33554432 }
        ensures { BlocksAgree K.kept coding.now count keeper [] result }
    {
        FedBlocks {
            reading: Reading::start(*coding, count),
            kept: Kept { keeper, last: 0 },
        }
    }

    /// Reads the next octets. Those after the block of the last value, or after an item at fault, are passed over.
    pub fn push(self, piece: &[u8]) -> FedBlocks<K>
        requires fed { IsFedBlocks K.kept self }
        requires short { length piece.now < 2 ^ 32 }
        ensures { (c : coded_by) (count : ℕ) (keeper : _) (octets : List ℕ) → BlocksAgree K.kept c count keeper octets self
            → BlocksAgree K.kept c count keeper (octets ++ piece.now) result }
    {
        let FedBlocks { mut reading, kept } = self;
        let ended = reading.end_item(piece, kept);
        let items = reading.read_items(piece, ended.place, ended.kept);
        let kept = reading.read_rest(piece, items.place, items.kept);
        FedBlocks { reading, kept }
    }

    /// What has kept the points, once all octets came.
    ///
    /// # Errors
    ///
    /// The first item that is at fault: the bits end before it does, a run goes past the end of its interval, a
    /// sequence of a second extension is over 90, or the code of a value is over the greatest number.
    pub fn finish(self) -> Result<K, BlockFault>
        requires fed { IsFedBlocks K.kept self }
        ensures { (c : coded_by) (count : ℕ) (keeper : _) (octets : List ℕ) → BlocksAgree K.kept c count keeper octets self
            → let read = decoded c count (bits_in octets) in MatchResult result
            (λ after. (fault_of read ≡ None) × AreKept K.kept c read.entries keeper after)
            (λ fault. fault_of read ≡ Some fault) }
    {
        match self.reading.stage() {
            Stage::Items => Err(BlockFault::Short),
            Stage::Over(Some(fault)) => Err(fault),
            Stage::Over(None) => Ok(self.kept.keeper),
        }
    }
}
