//! How many octets of a refusal are skipped, by the length that its octets state.

ghost use Rattle.std.specs.Prelude.{◌≡◌, ◌≤◌, ◌<◌, ◌+◌, true, length};
ghost use Rattle.grib_stream.specs.Stream.{begins};
ghost use Rattle.grib_stream.specs.Texts.{States};
ghost use Rattle.grib_items.specs.Next as passes;
ghost use Rattle.grib_items.specs.Next.{passed};

use grib_stream::is_truncated;
use grib2_sections::read_head;

/// How many octets a `GRIB` has, which are skipped of a refusal that has no end.
pub(crate) const MARK: usize = 4;

/// How many of these octets, which begin with `GRIB` and are refused, are skipped: up to the stated end where `7777`
/// stands there, and else that `GRIB`. Nothing where more octets may follow, and the stated end is not there yet.
pub(crate) fn octets_passed(octets: &[u8], more: bool) -> Option<usize>
    requires { begins octets.now ≡ true }
    ensures { result ≡ passed more octets.now }
{
    let total = match read_head(octets) {
        Ok(head) => head.total as usize,
        Err(fault) if more && is_truncated(&fault) => return None,
        Err(_) => return Some(MARK),
    };
    if octets.len() < total {
        return if more { None } else { Some(MARK) };
    }
    if is_ended(octets, total) {
        return Some(total);
    }
    Some(MARK)
}

/// Whether `7777` ends the first `total` octets.
fn is_ended(octets: &[u8], total: usize) -> bool
    requires { total ≤ length octets.now }
    ensures { result ≡ passes.is_ended total octets.now }
{
    octets[..total].ends_with(b"7777")
}

/// How many octets there have to be before it makes sense to look again at these, of which it is not known yet what
/// comes of them: those of the length that they state, and more than there are.
pub(crate) fn octets_wanted(octets: &[u8]) -> u64
    requires { begins octets.now ≡ true }
    ensures more { length octets.now < result }
    ensures stated { length octets.now + 1 < result → States octets.now result }
{
    let more = octets.len() as u64 + 1;
    match read_head(octets) {
        Ok(head) => head.total.max(more),
        Err(_) => more,
    }
}
