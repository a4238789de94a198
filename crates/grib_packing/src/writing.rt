//! Sections as they are written.

ghost use Rattle.std.specs.Prelude.{◌≡◌, ℕ, ◌+◌, ◌*◌, ◌%◌, ◌<◌, ◌≤◌, ◌++◌, ◌∷◌, [], length, All, IfOk};
ghost use Rattle.grib_bits.specs.Bits.{bits as bits_in, bits_of};
ghost use Rattle.grib_bits.specs.Octets.{StatesItself};
ghost use Rattle.grib_bits.specs.Encoding.{octets_of, AddsOctets};
ghost use Rattle.grib_packing.specs.Packed.{HasContents, HasNumbers, no_bitmap_section};
ghost use Rattle.grib_packing.specs.Sections.{Octets, number_octets};

use crate::Column;
use grib_base::List;
use grib_bits::{BitWriter, write_u8, write_u16, write_u32};
use std::alloc::{AllocError, Global};

/// A writer that has the memory of this many octets, and no bits.
///
/// # Errors
///
/// There is no memory for them.
pub fn room_for(alloc: Global, octets: u32) -> Result<BitWriter, AllocError>
    ensures { IfOk result (λ out. (out.bits ≡ []) × (8 * octets ≤ out.spare)) }
{
    let mut out = BitWriter::new(alloc);
    out.reserve(8 * u64::from(octets))?;
    Ok(out)
}

/// What was written, as octets.
pub fn octets_written(out: BitWriter) -> List<u8>
    requires { length out.bits % 8 ≡ 0 }
    ensures bits { bits_in result ≡ out.bits }
    ensures octets { All (λ octet. octet < 256) result }
{
    let octets = out.into_octets();
    are_octets(&octets);
    List::of(octets)
}

/// Octets are numbers below 256.
#[inline]
pub fn are_octets(octets: &[u8])
    ensures { All (λ octet. octet < 256) octets.now }
{}

/// Writes octets 1 to 5 of a section: its length in octets and its number.
pub fn write_head(length: u32, number: u8, out: &mut BitWriter)
    requires { 40 ≤ out.old.spare }
    ensures { AddsOctets out.old out.new (octets_of 4 length ++ number ∷ []) }
{
    write_u32(length, out);
    write_u8(number, out);
}

/// Writes octets 6 to 21 of a Section 5: the number of values, the template, R, E and D as they are, the
/// bits of each number and the type of the original values (WMO-No. 306, Volume I.2, FM 92 GRIB edition 2,
/// data representation templates 5.0, 5.2 and 5.3).
pub fn write_numbers(
    column: &Column,
    values: u32,
    template: u16,
    bits: u8,
    kind: u8,
    out: &mut BitWriter,
)
    requires { 128 ≤ out.old.spare }
    ensures octets { AddsOctets out.old out.new (number_octets column.now values template bits kind) }
    ensures numbers { (section rest : Octets) (length : ℕ)
        → section ≡ (octets_of 4 length ++ 5 ∷ number_octets column.now values template bits kind) ++ rest
        → StatesItself 5 section → All (λ octet. octet < 256) section
        → HasNumbers section column.now values template bits kind }
{
    write_u32(values, out);
    write_u16(template, out);
    write_u32(column.reference, out);
    write_u16(column.e, out);
    write_u16(column.d, out);
    write_u8(bits, out);
    write_u8(kind, out);
}

/// Section 6 without a bitmap, in a writer that has room for its 6 octets.
pub fn no_bitmap(mut room: BitWriter) -> List<u8>
    requires none { room.bits ≡ [] }
    requires room { 48 ≤ room.spare }
    ensures section { result ≡ no_bitmap_section }
    ensures has { HasContents 6 result (bits_of 8 255) }
{
    write_head(6, 6, &mut room);
    write_u8(255, &mut room);
    octets_written(room)
}
