//! Where the next message begins.

ghost use Rattle.std.specs.Prelude.{◌≡◌, ◌≤◌, ◌<◌, ◌⊎◌, true, length, drop};
ghost use Rattle.grib_stream.specs.Stream.{begins};
ghost use Rattle.grib_stream.specs.Searching.{Unmarked};

use memchr::memmem;

/// How many of the first octets begin no message: those before the first `GRIB`, or, where there is none,
/// all but the last three, which may be the beginning of one.
pub fn octets_before_mark(octets: &[u8]) -> usize
    ensures unmarked { Unmarked result octets.now }
    ensures within { result ≤ length octets.now }
    ensures begun { 4 ≤ length (drop result octets.now) → begins (drop result octets.now) ≡ true }
{
    match memmem::find(octets, b"GRIB") {
        Some(place) => place,
        None => octets.len().saturating_sub(3),
    }
}
