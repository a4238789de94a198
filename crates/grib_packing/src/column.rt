//! What a field holds: one entry for each grid point.

use grib_base::List;

/// A grid point. Its value Y follows from its scaled integer X by Y * 10^D = R + X * 2^E
/// (WMO-No. 306, Volume I.2, FM 92 GRIB edition 2, data representation template 5.0).
#[derive(Clone, Copy, Debug, PartialEq, Eq)]
pub enum Point {
    /// The scaled integer X.
    Scaled(i64),
    /// Left out by the bitmap, or primary missing (code table 5.5).
    Missing,
    /// Secondary missing.
    Missing2,
}

/// The points of a field in the grid's order, with the raw octets of Section 5 that give them values.
#[derive(Debug, Drop)]
pub struct Column {
    /// The word of the reference value R: octets 12-15.
    pub reference: u32,
    /// The binary scale factor E, sign and magnitude: octets 16-17.
    pub e: u16,
    /// The decimal scale factor D, sign and magnitude: octets 18-19.
    pub d: u16,
    /// One entry for each grid point.
    pub points: List<Point>,
}
