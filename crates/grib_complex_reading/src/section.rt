//! What a section says of itself.

ghost use Rattle.std.specs.Prelude.{◌≡◌, length};

use byteorder::{BigEndian, ByteOrder};
use grib_base::Section;

/// The length that a section states, which is its own.
pub fn length_of_section(section: &Section<'_>) -> u32
    ensures { result ≡ length section.now.octets.now }
{
    BigEndian::read_u32(section.octets)
}
