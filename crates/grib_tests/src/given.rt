//! Sections that are tried by several crates, and octets that are changed.

ghost use Rattle.std.specs.Prelude.{◌≡◌};

use byteorder::{BigEndian, ByteOrder};
use grib_base::Section;
use std::process::Abort;

/// The octets as a section that begins there, for which it is seen first that they state themselves.
pub(crate) fn section<'a>(rt: &impl Abort, number: u8, start: u64, octets: &'a [u8]) -> Section<'a>
    ensures number { result.number ≡ number }
    ensures start { result.start ≡ start }
    ensures octets { result.octets.now ≡ octets.now }
{
    assert!(rt; octets.len() >= 5 && octets[4] == number);
    assert!(rt; BigEndian::read_u32(octets) as usize == octets.len());
    assert!(rt; 1 <= start && start <= 268_435_456);
    Section {
        number,
        start,
        octets,
    }
}

/// The octets from `at` on, counted from 0, become these.
pub(crate) fn put(octets: &mut Vec<u8>, at: u8, new: &[u8]) {
    for (k, octet) in new.iter().enumerate() {
        if let Some(place) = octets.get_mut(usize::from(at) + k) {
            *place = *octet;
        }
    }
}

/// Octets 1 to 4 become the length of the section, which is below 256.
pub(crate) fn put_length(rt: &impl Abort, octets: &mut Vec<u8>) {
    assert!(rt; octets.len() < 256);
    let length = octets.len() as u8;
    put(octets, 0, &[0, 0, 0, length]);
}
