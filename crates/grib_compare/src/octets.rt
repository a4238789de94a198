//! The first octet in which two sections differ.

ghost use Rattle.std.specs.Prelude.{◌≡◌};
ghost use Rattle.grib_compare.specs.Fields.{octet_from};

/// The number, from 1, of the first octet that is not the same in both, if there is one. One that stands in one of them
/// alone is not the same.
pub(crate) fn first_octet(left: &[u8], right: &[u8]) -> Option<u64>
    ensures { result ≡ octet_from 1 left.now right.now }
{
    let both = left.len().min(right.len());
    for i in 0..both {
        if left[i] != right[i] {
            return Some(i as u64 + 1);
        }
    }
    if left.len() == right.len() {
        None
    } else {
        Some(both as u64 + 1)
    }
}
