//! A Section 7 whose numbers are written as they come.

ghost use Rattle.std.specs.Prelude.{◌*◌, ◌^◌, ◌<◌, ◌≤◌};

use grib_bits::BitWriter;

/// A Section 7 of simple packing: the numbers of the points of values, in as many bits each, one after another as
/// these come (WMO-No. 306, Volume I.2, FM 92 GRIB edition 2, data template 7.0). A missing value has none.
#[derive(Debug, Drop)]
pub struct NumberWriter {
    pub out: BitWriter,
    /// The greatest number.
    pub greatest: u64,
    /// How many bits each number has.
    pub width: u32,
    /// How many numbers are still to come.
    pub left: u32,
    ghost narrow: { width ≤ 48 },
    ghost fits: { greatest < 2 ^ width },
    ghost room: { left * width ≤ out.spare },
}
