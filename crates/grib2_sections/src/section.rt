//! Sections that are written whole.

ghost use Rattle.std.specs.Prelude.{◌≡◌, ◌+◌, ◌-◌, ◌*◌, ◌%◌, ◌^◌, ◌<◌, ◌≤◌, length};
ghost use Rattle.grib_bits.specs.Octets.{StatesItself};
ghost use Rattle.grib_bits.specs.Encoding.{section_of, AddsOctets};

use grib_bits::{BitWriter, write_octets, write_u8, write_u32};

/// Writes a section: its length in octets, its number and these contents (WMO-No. 306, Volume I.2,
/// FM 92 GRIB edition 2).
pub fn write_section(number: u8, contents: &[u8], out: &mut BitWriter)
    requires whole { length out.old.bits % 8 ≡ 0 }
    requires room { 8 * (5 + length contents.now) ≤ out.old.spare }
    requires most { length contents.now < 2 ^ 32 - 5 }
    ensures itself { StatesItself number (section_of number contents.now) }
    ensures octets { AddsOctets out.old out.new (section_of number contents.now) }
    ensures whole { length out.new.bits % 8 ≡ 0 }
{
    write_u32(5 + contents.len() as u32, out);
    write_u8(number, out);
    write_octets(contents, out);
}
