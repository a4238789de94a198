//! Whether groups of codes may take fewer octets than some number.

ghost use Rattle.std.specs.Prelude.{◌≡◌, ℕ, ◌+◌, ◌*◌, ◌≤◌, true, List, All, IsSomeAnd, length};
ghost use Rattle.grib_packing.specs.Groupings.{IsGrouping};
ghost use Rattle.grib_packing.specs.Packed.{group_parts};
ghost use Rattle.grib_codes.specs.Span.{IsTold};
ghost use Rattle.grib_codes.specs.FieldCodes.{codes_in};

use crate::grouping::costs_of;
use grib_codes::{FieldCodes, Words};
use grib_split::bits_at_least;

/// Whether a quick look shows that the groups of these codes, however they are cut, take `below` octets or
/// more together with the octets beside them. Codes that are all the same take few, and are not looked at.
pub fn are_too_many(codes: &FieldCodes, management: u8, beside: u32, below: Option<u64>) -> bool
    requires some { 1 ≤ length (codes_in codes.now) }
    requires few { length (codes_in codes.now) ≤ 33554432 }
    requires management { management ≤ 2 }
    requires codes { All (IsTold management) (codes_in codes.now) }
    ensures { result ≡ true → IsSomeAnd below (λ most. (lengths : List ℕ) → IsGrouping (length (codes_in codes.now)) lengths
        → 8 * most ≤ 8 * beside + length (group_parts management (codes_in codes.now) lengths)) }
{
    let Some(most) = below else {
        return false;
    };
    match codes {
        FieldCodes::Each(words) => are_too_many_of(words, management, beside, most),
        FieldCodes::Same(_code, _count) => false,
    }
}

/// Whether a quick look shows it of codes one after another.
fn are_too_many_of(words: &Words, management: u8, beside: u32, most: u64) -> bool
    requires some { 1 ≤ length words.now }
    requires few { length words.now ≤ 33554432 }
    requires management { management ≤ 2 }
    requires codes { All (IsTold management) words.now }
    ensures { result ≡ true → (lengths : List ℕ) → IsGrouping (length words.now) lengths
        → 8 * most ≤ 8 * beside + length (group_parts management words.now lengths) }
{
    let codes = words.codes();
    let beside = u64::from(beside);
    let enough = most.saturating_sub(beside).saturating_mul(8);
    let bits = bits_at_least(&codes, &costs_of(&codes, management), enough);
    most <= beside + bits.div_ceil(8)
}
