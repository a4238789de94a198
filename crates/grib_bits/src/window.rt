//! Bits that were taken from octets and wait to be read.

ghost use Rattle.std.specs.Prelude.{◌≡◌, ◌↔◌, ◌+◌, ◌-◌, ◌/◌, ◌%◌, ◌^◌, ◌<◌, ◌≤◌, List, [], ◌++◌, length, take as first, drop as after, Bool, IsTrue};
ghost use Rattle.grib_bits.specs.Bits.{bits_of, num};

use std::marker::Model;

/// At most 64 pending bits, filled an octet at a time and emptied by fields of any width. A clause
/// sees the bits, the next one first.
#[derive(Debug, Drop)]
pub struct BitWindow {
    word: u64,
    count: u32,
}

// The word has no bits but those that are pending.
impl Model for BitWindow {
    ghost Value = { List Bool };

    ghost view = { λ window. bits_of window.count window.word };

    ghost invariant = { λ window. (window.count ≤ 64) × (window.word < 2 ^ window.count) };
}

impl BitWindow {
    /// A window with no pending bits.
    pub fn new() -> BitWindow
        ensures { result ≡ [] }
    {
        BitWindow { word: 0, count: 0 }
    }

    /// How many bits are pending.
    #[inline]
    pub fn len(&self) -> u32
        ensures bits { result ≡ length self.now }
        ensures within { result ≤ 64 }
    {
        self.count
    }

    /// How many whole octets may be pushed.
    #[inline]
    pub fn room(&self) -> u32
        ensures octets { result ≡ (64 - length self.now) / 8 }
        ensures within { length self.now ≤ 64 }
    {
        (64 - self.count) / 8
    }

    /// Adds the eight bits of `octet` behind those that are pending.
    #[inline]
    pub fn push(&mut self, octet: u8)
        requires { length self.old + 8 ≤ 64 }
        ensures { self.new ≡ self.old ++ bits_of 8 octet }
    {
        self.word = self.word << 8 | u64::from(octet);
        self.count += 8;
    }

    /// Whether `width` bits are pending.
    #[inline]
    pub fn has(&self, width: u32) -> bool
        ensures pending { IsTrue result ↔ (width ≤ length self.now) }
        ensures within { length self.now ≤ 64 }
    {
        width <= self.count
    }

    /// Takes the next `width` bits, and gives the number without sign that they make: 0 for none.
    #[inline]
    pub fn take(&mut self, width: u32) -> u64
        requires { width ≤ length self.old }
        ensures number { result ≡ num (first width self.old) }
        ensures rest { self.new ≡ after width self.old }
    {
        if width == 0 {
            return 0;
        }
        let rest = self.count - width;
        let number = self.word >> rest;
        self.word &= (1 << rest) - 1;
        self.count = rest;
        number
    }

    /// Drops the next bits up to a whole number of octets, so that what follows begins an octet.
    #[inline]
    pub fn drop_to_octet(&mut self)
        ensures { self.new ≡ after (length self.old % 8) self.old }
    {
        let _dropped = self.take(self.count % 8);
    }
}
