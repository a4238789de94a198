//! Sections that are tried by several crates.

ghost use Rattle.std.specs.Prelude.{◌≡◌};

use byteorder::{BigEndian, ByteOrder};
use grib_base::Section;
use std::process::Abort;

/// The octets as a section that begins there, for which it is seen first that they state themselves.
pub(crate) fn section<'a>(rt: &impl Abort, number: u8, start: u64, octets: &'a [u8]) -> Section<'a>
    ensures number { result.number ≡ number }
    ensures start { result.start ≡ start }
    ensures octets { result.octets.now ≡ octets.now }
{
    assert!(rt; octets.len() >= 5 && octets[4] == number);
    assert!(rt; BigEndian::read_u32(octets) as usize == octets.len());
    assert!(rt; 1 <= start && start <= 268_435_456);
    Section {
        number,
        start,
        octets,
    }
}
