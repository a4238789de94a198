//! What the arguments ask the run to accept, and to do with what it cannot answer.

ghost use Rattle.std.specs.Prelude.{◌≡◌, map, string_bytes};
ghost use Rattle.grib_words.specs.Words as asked;

use crate::reading::has_word;
use grib_base::Profile;
use grib_items::{Instead, Policy};

/// What the arguments ask to be written instead of octets that are refused, and for messages that cannot be changed.
pub fn policy_of(words: &[String]) -> Policy
    ensures { result ≡ asked.policy_of (map string_bytes words.now) }
{
    Policy {
        refused: instead_by(words, "refused=copy", "refused=pass"),
        kept: instead_by(words, "kept=copy", "kept=pass"),
    }
}

/// By which profile the arguments ask messages of edition 2 to be accepted.
pub fn profile_of(words: &[String]) -> Profile
    ensures { result ≡ asked.profile_of (map string_bytes words.now) }
{
    if has_word(words, "profile=open") {
        Profile::Open
    } else {
        Profile::Stated
    }
}

/// What is written instead where one of these two is among the arguments.
fn instead_by(words: &[String], copied: &str, passed: &str) -> Option<Instead>
    ensures { result ≡ asked.instead_by copied.now passed.now (map string_bytes words.now) }
{
    if has_word(words, copied) {
        Some(Instead::Copy)
    } else if has_word(words, passed) {
        Some(Instead::Pass)
    } else {
        None
    }
}
