//! The numbers of Section 5 that tell how groups stand in Section 7.

/// How the groups of a complex packing are laid out (WMO-No. 306, Volume I.2, FM 92 GRIB edition 2, data
/// representation templates 5.2 and 5.3). Each field is the number of the octets of Section 5 that
/// its line names.
#[derive(Clone, Copy, Debug, PartialEq, Eq)]
pub struct Layout {
    /// The number of groups, NG: octets 32-35.
    pub groups: u32,
    /// The bits of each group reference: octet 20.
    pub reference_bits: u8,
    /// The reference for group widths, in bits: octet 36.
    pub width_reference: u8,
    /// The bits of each coded group width: octet 37.
    pub width_bits: u8,
    /// The reference for group lengths, in values: octets 38-41.
    pub length_reference: u32,
    /// The increment of group lengths, in values: octet 42.
    pub length_increment: u8,
    /// The true length of the last group, in values: octets 43-46.
    pub last_length: u32,
    /// The bits of each coded group length: octet 47.
    pub length_bits: u8,
    /// The missing value management (code table 5.5): octet 23.
    pub management: u8,
}
