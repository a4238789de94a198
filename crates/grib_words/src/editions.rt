//! The keys that names are of, and their editions.

ghost use Rattle.std.specs.Prelude.{◌≡◌, map, string_bytes};
ghost use Rattle.grib_words.specs.Reading as grammar;

use crate::wanted::{asked_key, asked_key1};
use grib_keys::Key;
use grib1_sections::Key1;

/// Whether a name is that of a key of either edition.
pub fn is_any_key(name: &str) -> bool
    ensures { result ≡ grammar.is_any_key name.now }
{
    is_key(name) || is_key1(name)
}

/// Whether a name is that of a key of edition 2.
fn is_key(name: &str) -> bool
    ensures { result ≡ grammar.is_key name.now }
{
    Key::of(name).is_some()
}

/// Whether a name is that of a key of edition 1.
pub fn is_key1(name: &str) -> bool
    ensures { result ≡ grammar.is_key1 name.now }
{
    Key1::of(name).is_some()
}

/// Whether a name is that of a key of edition 2 that can be set.
pub fn is_key_to_set(name: &str) -> bool
    ensures { result ≡ grammar.is_key_to_set name.now }
{
    match Key::of(name) {
        Some(key) => key.can_set(),
        None => false,
    }
}

/// Whether a name is that of a key of edition 1 that can be set.
pub fn is_key1_to_set(name: &str) -> bool
    ensures { result ≡ grammar.is_key1_to_set name.now }
{
    match Key1::of(name) {
        Some(key) => key.can_set(),
        None => false,
    }
}

/// Whether a name asks of a key of either edition.
pub fn is_asked(name: &str) -> bool
    ensures { result ≡ grammar.is_any_asked name.now }
{
    asked_key(name).is_some() || asked_key1(name).is_some()
}

/// Whether a name asks of messages of edition 1.
pub fn is_on_first(name: &str) -> bool
    ensures { result ≡ grammar.is_on_first name.now }
{
    asked_key1(name).is_some()
}

/// Whether a name asks of fields of edition 2.
fn is_on_second(name: &str) -> bool
    ensures { result ≡ grammar.is_on_second name.now }
{
    asked_key(name).is_some() || matches!(name, "name" | "names")
}

/// Whether two names are of different editions.
fn are_mixed(name: &str, other: &str) -> bool
    ensures { result ≡ grammar.are_mixed name.now other.now }
{
    (is_on_first(name) && is_on_second(other)) || (is_on_second(name) && is_on_first(other))
}

/// Whether one of the arguments has a name of the other edition than this one.
pub fn is_mixed(words: &[String], name: &str) -> bool
    ensures { result ≡ grammar.is_mixed (map string_bytes words.now) name.now }
{
    words.iter().any(|word| is_other(word.as_str(), name))
}

/// Whether an argument has a name of the other edition than this one.
fn is_other(word: &str, name: &str) -> bool
    ensures { result ≡ grammar.is_other name.now word.now }
{
    match word.split_once('=') {
        Some((found, _)) => are_mixed(name, found),
        None => false,
    }
}

/// Whether one of the arguments is on a key of edition 1.
pub fn has_first(words: &[String]) -> bool
    ensures { result ≡ grammar.has_first (map string_bytes words.now) }
{
    words.iter().any(|word| is_of_first(word.as_str()))
}

/// Whether an argument is on a key of edition 1.
fn is_of_first(word: &str) -> bool
    ensures { result ≡ grammar.is_of_first word.now }
{
    match word.split_once('=') {
        Some((name, _)) => is_on_first(name),
        None => false,
    }
}
