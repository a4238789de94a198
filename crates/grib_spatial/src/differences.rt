//! Numbers as they are given by their differences.

use grib_base::List;

/// The spatial differences of numbers (WMO-No. 306, Volume I.2, FM 92 GRIB edition 2, data template
/// 7.3, code table 5.6).
#[derive(Debug, Drop)]
pub struct Differences {
    /// The first number.
    pub first: i64,
    /// The second number, for differences of order 2.
    pub second: i64,
    /// The overall minimum of the differences.
    pub minimum: i64,
    /// One entry for each number: its difference less the minimum. As many as the order, from the
    /// first on, say nothing.
    pub codes: List<u64>,
}
