//! The groups of complex packing.

/// A group: values that stand one after another and share a reference and a width (WMO-No. 306,
/// Volume I.2, FM 92 GRIB edition 2, data template 7.2).
#[derive(Clone, Copy, Debug, PartialEq, Eq)]
pub struct Group {
    /// The reference, which is added to each packed number.
    pub reference: u32,
    /// The width of each packed number in bits.
    pub width: u8,
    /// The length: how many values there are.
    pub count: u32,
}
