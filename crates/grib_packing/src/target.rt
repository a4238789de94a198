//! What a message is repacked to.

/// What a message is repacked to (WMO-No. 306, Volume I.2, FM 92 GRIB edition 2, code table 5.0).
#[derive(Clone, Copy, Debug, PartialEq, Eq)]
pub enum RepackTarget {
    /// Simple packing: template 5.0.
    Simple,
    /// Complex packing: template 5.2.
    Complex,
    /// Complex packing of the spatial differences of this order, 1 or 2: template 5.3.
    Spatial(u8),
    /// CCSDS packing: template 5.42.
    Coded {
        /// The values of a block: 8, 16, 32 or 64.
        block: u8,
        /// The blocks from one reference to the next: 1 to 4,096.
        interval: u16,
    },
}
