//! Bits written one field after another.

ghost use Rattle.std.specs.Prelude.{◌≡◌, ◌+◌, ◌-◌, ◌*◌, ◌%◌, ◌^◌, ◌<◌, ◌≤◌, [], ◌++◌, length, take, replicate, false, vec_len, OnOk, OnErr};
ghost use Rattle.std.specs.Int.{w64, to_be_bytes};
ghost use Rattle.grib_bits.specs.Bits.{bits, bits_of};
ghost use Rattle.grib_bits.specs.Written.{padding};

use std::alloc::{AllocError, Global};
use std::marker::Model;

/// Octets that are written bit by bit, from the left. A clause sees the `bits` that stand there, and
/// how many `spare` bits more have their memory already.
#[derive(Debug, Drop)]
pub struct BitWriter {
    // what is written, and then zeros
    octets: Vec<u8>,
    // how many octets are written
    len: usize,
    word: u64,
    // how many bits of the word are not pending, from 1 to 64
    free: u32,
}

// The octets that are written, and then the word but for its first `free` bits, which are left over.
impl Model for BitWriter {
    ghost use Rattle.std.specs.Prelude.{◌+◌, ◌-◌, ◌*◌, ◌<◌, ◌≤◌, ◌++◌, take, vec_len};
    ghost use Rattle.grib_bits.specs.Bits.{bits as bits_in, bits_of};
    ghost use Rattle.grib_bits.specs.Written.{Written};

    ghost Value = { Written };

    ghost view = { λ writer. record {
      bits = bits_in (take writer.len writer.octets.items) ++ bits_of (64 - writer.free) writer.word;
      spare = 8 * vec_len writer.octets + writer.free - (8 * writer.len + 64);
    } };

    ghost invariant = { λ writer. (0 < writer.free) × (writer.free ≤ 64)
        × (8 * writer.len + 64 ≤ 8 * vec_len writer.octets + writer.free) };
}

impl BitWriter {
    /// A writer of no bits. It takes no memory.
    pub fn new(alloc: Global) -> BitWriter
        ensures bits { result.bits ≡ [] }
        ensures spare { result.spare ≡ 0 }
    {
        BitWriter {
            octets: Vec::new(alloc),
            len: 0,
            word: 0,
            free: 64,
        }
    }

    /// Takes memory for at least `bits` bits more, up to the end of an octet. On an error nothing has
    /// changed.
    pub fn reserve(&mut self, bits: u64) -> Result<(), AllocError>
        ensures bits { OnOk result (self.new.bits ≡ self.old.bits) }
        ensures spare { OnOk result (bits ≤ self.new.spare) }
        ensures kept { OnOk result (self.old.spare ≤ self.new.spare) }
        ensures whole { OnOk result ((length self.new.bits + self.new.spare) % 8 ≡ 0) }
        ensures err { OnErr result (self.new ≡ self.old) }
    {
        let more = bits / 8 + (bits % 8 + u64::from(64 - self.free)).div_ceil(8);
        let end = self.len + more as usize;
        if end > self.octets.len() {
            self.octets.resize(end, 0)?;
        }
        Ok(())
    }

    /// Writes the last `width` bits of `value`, which has no others.
    #[inline(always)]
    pub fn put(&mut self, value: u64, width: u32)
        requires word { width ≤ 64 }
        requires fits { value < 2 ^ width }
        requires room { width ≤ self.old.spare }
        ensures bits { self.new.bits ≡ self.old.bits ++ bits_of width value }
        ensures spare { self.new.spare + width ≡ self.old.spare }
    {
        let word = self.word;
        let free = self.free;
        if width < free {
            self.word = word << width | value;
            self.free = free - width;
            return;
        }
        let rest = width - free;
        // The two parts share no bit. With `|` LLVM would move them apart, octet by octet.
        let full = (word << (free - 1) << 1) + (value >> rest);
        write_word(&mut self.octets, self.len, full);
        self.len += 8;
        self.word = value;
        self.free = 64 - rest;
    }

    /// Writes zero bits up to the end of an octet, none where one has just ended.
    pub fn align(&mut self)
        ensures bits { self.new.bits ≡ self.old.bits ++ replicate (padding self.old.bits) false }
        ensures spare { self.new.spare + padding self.old.bits ≡ self.old.spare }
    {
        self.put(0, self.free % 8);
    }

    /// The octets that the bits make.
    pub fn into_octets(self) -> Vec<u8>
        requires { length self.bits % 8 ≡ 0 }
        ensures { bits result.items ≡ self.bits }
    {
        let BitWriter {
            mut octets,
            len,
            word,
            free,
        } = self;
        octets.truncate(len);
        let mut count = 64 - free;
        while count > 0 {
            count -= 8;
            let Ok(()) = octets.push((word >> count & 255) as u8) else {
                unreachable!();
            };
        }
        octets
    }
}

/// Writes the eight octets of a word behind the first `len`.
#[inline(always)]
fn write_word(octets: &mut Vec<u8>, len: usize, word: u64)
    requires { len + 8 ≤ vec_len octets.old }
    ensures items { take (len + 8) octets.new.items ≡ take len octets.old.items ++ to_be_bytes w64 word }
    ensures len { vec_len octets.new ≡ vec_len octets.old }
{
    octets[len..len + 8].copy_from_slice(&word.to_be_bytes());
}
