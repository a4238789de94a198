//! What a group of a complex packing holds for a value.

/// The code of a value (WMO-No. 306, Volume I.2, FM 92 GRIB edition 2, data templates 7.2 and 7.3).
#[derive(Clone, Copy, Debug, PartialEq, Eq)]
pub enum Code {
    /// A number: the group's reference plus the packed number.
    Present(u64),
    /// Primary missing (code table 5.5).
    Primary,
    /// Secondary missing.
    Secondary,
}
