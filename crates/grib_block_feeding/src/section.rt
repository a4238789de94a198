//! A Section 7 in CCSDS packing: what it is refused for, and the values of numbers of no bits.

ghost use Rattle.std.specs.Prelude.{◌≡◌, replicate, Some};
ghost use Rattle.grib_base.specs.Rules.{located};
ghost use Rattle.grib_packing.specs.Coded.{block_refusal, point_of};

use grib_base::{Fault, Reason};
use grib_coding::BlockFault;
use grib_packing::{Keeper, Point};

/// The refusal of a Section 7 of `length` octets, which begins at octet `start` of the message, for what is wrong with
/// its blocks.
pub fn fault_of_blocks(fault: BlockFault, start: u64, length: u64) -> Fault
    ensures { located start (block_refusal length (Some fault)) ≡ Some result }
{
    match fault {
        BlockFault::Short => Fault::at(start, Reason::DataTooShort, length),
        BlockFault::Block(block) => Fault::at(start, Reason::BlockCode, u64::from(block)),
        BlockFault::Value(value) => Fault::at(start, Reason::ScaledRange, u64::from(value)),
    }
}

/// Hands on the points of this many numbers that are 0.
pub fn keep_zeros<K: Keeper>(keeper: K, count: u32) -> K
    ensures { K.kept keeper (replicate count (point_of 0)) result }
{
    if !keeper.keeps() {
        return keeper;
    }
    let mut kept = keeper;
    for _value in 0..count {
        kept = kept.keep(Point::Scaled(0));
    }
    kept
}
