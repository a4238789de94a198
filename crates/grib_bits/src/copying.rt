//! Octets that are written as they are.

ghost use Rattle.std.specs.Prelude.{◌*◌, ◌≤◌, length, take};
ghost use Rattle.grib_bits.specs.Encoding.{AddsOctets};

use crate::number::write_u8;
use crate::writer::BitWriter;
use byteorder::{BigEndian, ByteOrder};

/// Writes these octets.
pub fn write_octets(octets: &[u8], out: &mut BitWriter)
    requires { 8 * length octets.now ≤ out.old.spare }
    ensures { AddsOctets out.old out.new octets.now }
{
    let words = octets.len() / 8;
    write_words(octets, words, out);
    for octet in &octets[8 * words..] {
        write_u8(*octet, out);
    }
}

/// Writes the first octets, eight at a time.
fn write_words(octets: &[u8], words: usize, out: &mut BitWriter)
    requires there { 8 * words ≤ length octets.now }
    requires room { 8 * length octets.now ≤ out.old.spare }
    ensures { AddsOctets out.old out.new (take (8 * words) octets.now) }
{
    for word in 0..words {
        out.put(BigEndian::read_u64(&octets[8 * word..]), 64);
    }
}
