//! What blocks are coded by.

ghost use Rattle.std.specs.Prelude.{◌≡◌, ◌≤◌, ◌<◌, ◌^◌, ◌*◌, ◌↔◌, IsTrue};

/// How numbers are coded in blocks (WMO-No. 306, Volume I.2, FM 92 GRIB edition 2, data representation template
/// 5.42).
#[derive(Clone, Copy, Debug, PartialEq, Eq)]
pub struct Coding {
    /// The bits of each number, octet 20.
    pub bits: u8,
    /// The flags, octet 22: 8 where codes are mapped differences, 16 where identifiers have 1 or 2 bits, 32 where
    /// each interval begins at a whole octet.
    pub flags: u8,
    /// The values of a block, octet 23.
    pub block: u8,
    /// The blocks from one reference to the next, octets 24-25.
    pub interval: u16,
}

impl Coding {
    ghost use Rattle.grib_coding.specs.Coding.{is_mapped, is_padded, greatest, identifier_width, block_count, Fits};

    /// Whether codes are mapped differences.
    #[inline]
    pub fn is_mapped(self) -> bool
        ensures { result ≡ is_mapped self }
    {
        self.flags / 8 % 2 == 1
    }

    /// Whether each interval begins at a whole octet.
    #[inline]
    pub fn is_padded(self) -> bool
        ensures { result ≡ is_padded self }
    {
        self.flags / 32 % 2 == 1
    }

    /// The greatest number.
    #[inline]
    pub fn greatest(self) -> u32
        requires { self.bits ≤ 32 }
        ensures { result ≡ greatest self }
    {
        ((1u64 << self.bits) - 1) as u32
    }

    /// How many bits the identifier of an item has, from 1 to 5.
    #[inline]
    pub fn identifier_width(self) -> u32
        ensures is { result ≡ identifier_width self }
        ensures within { result ≤ 5 }
    {
        match self.bits {
            17.. => 5,
            9..=16 => 4,
            _ if self.flags / 16 % 2 == 0 => 3,
            3.. => 2,
            _ => 1,
        }
    }

    /// How many blocks hold `count` values.
    #[inline]
    pub fn block_count(self, count: u32) -> u32
        requires { 1 ≤ self.block }
        ensures { result ≡ block_count self count }
    {
        count.div_ceil(u32::from(self.block))
    }

    /// Whether numbers can be coded so: 1 to 32 bits; no sign, no other block than one of 8, 16, 32 or 64 values,
    /// and no flag 128; identifiers of 1 or 2 bits for at most 4 bits alone; intervals of 1 to 4,096 blocks.
    pub fn fits(self) -> bool
        ensures { IsTrue result ↔ Fits self }
    {
        let signed = self.flags % 2 == 1;
        let any_block = self.flags / 64 % 2 == 1;
        1 <= self.bits
            && self.bits <= 32
            && !signed
            && !any_block
            && self.flags <= 127
            && (self.flags / 16 % 2 == 0 || self.bits <= 4)
            && matches!(self.block, 8 | 16 | 32 | 64)
            && 1 <= self.interval
            && self.interval <= 4096
    }
}
