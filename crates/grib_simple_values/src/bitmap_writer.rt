//! A Section 6 whose bits are written as they come.

ghost use Rattle.std.specs.Prelude.{◌≤◌};

use grib_bits::BitWriter;

/// A Section 6 with a bit for each value, 1 for those that are not missing, one after another as these come (WMO-No. 306,
/// Volume I.2, FM 92 GRIB edition 2, code table 6.0).
#[derive(Debug, Drop)]
pub struct BitmapWriter {
    pub out: BitWriter,
    /// How many values are still to come.
    pub left: u32,
    ghost room: { left ≤ out.spare },
}
