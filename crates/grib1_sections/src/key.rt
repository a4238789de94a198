//! The numbers of Section 1 by their keys.

ghost use Rattle.std.specs.Prelude.{◌≡◌, ◌≤◌, ◌<◌, ◌^◌, length};
ghost use Rattle.grib1_sections.specs.Keys.{key_in};

use grib_bits::uint_at;
use grib_keys::Key1;

/// The number of the key in this Section 1.
pub(crate) fn number_of(section1: &[u8], key: Key1) -> u64
    requires { 28 ≤ length section1.now }
    ensures number { result ≡ key_in section1.now key }
    ensures small { result < 2 ^ 16 }
{
    let place = key.place();
    let size = place.last + 1 - place.first;
    u64::from(uint_at(section1, place.first, size))
}
