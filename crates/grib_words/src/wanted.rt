//! What the arguments of `filter` ask of keys.

ghost use Rattle.std.specs.Prelude.{◌≡◌, map, string_bytes, IfOk};
ghost use Rattle.grib_words.specs.Reading as grammar;
ghost use Rattle.grib_words.specs.Words as asked;

use crate::choices::choices_of;
use grib_keys::{Choices, Key, Test, Wanted};
use grib1_sections::Key1;
use grib1_select::Wanted1;
use std::alloc::{AllocError, Global};

/// The conditions of the arguments, in their order.
pub fn conditions_of(alloc: Global, words: &[String]) -> Result<Vec<Wanted>, AllocError>
    ensures { IfOk result (λ v. v.items ≡ asked.conditions_of (map string_bytes words.now)) }
{
    let mut conditions = Vec::new(alloc);
    for word in words {
        if let Some(condition) = wanted_of(alloc, word.as_str())? {
            conditions.push(condition)?;
        }
    }
    Ok(conditions)
}

/// The key that an argument asks of, with what it asks, if there is such a key and the argument has such values.
fn wanted_of(alloc: Global, word: &str) -> Result<Option<Wanted>, AllocError>
    ensures { IfOk result (λ found. found ≡ asked.wanted_of word.now) }
{
    let Some((name, values)) = word.split_once('=') else {
        return Ok(None);
    };
    let Some(key) = asked_key(name) else {
        return Ok(None);
    };
    let Some(choices) = choices_of(alloc, values)? else {
        return Ok(None);
    };
    let test = test_of(is_marked(name), choices);
    Ok(Some(Wanted { key, test }))
}

/// The conditions on keys of edition 1 of the arguments, in their order.
pub fn conditions1_of(alloc: Global, words: &[String]) -> Result<Vec<Wanted1>, AllocError>
    ensures { IfOk result (λ v. v.items ≡ asked.conditions1_of (map string_bytes words.now)) }
{
    let mut conditions = Vec::new(alloc);
    for word in words {
        if let Some(condition) = wanted1_of(alloc, word.as_str())? {
            conditions.push(condition)?;
        }
    }
    Ok(conditions)
}

/// The key of edition 1 that an argument asks of, with what it asks, if there is such a key and the argument has such
/// values.
fn wanted1_of(alloc: Global, word: &str) -> Result<Option<Wanted1>, AllocError>
    ensures { IfOk result (λ found. found ≡ asked.wanted1_of word.now) }
{
    let Some((name, values)) = word.split_once('=') else {
        return Ok(None);
    };
    let Some(key) = asked_key1(name) else {
        return Ok(None);
    };
    let Some(choices) = choices_of(alloc, values)? else {
        return Ok(None);
    };
    let test = test_of(is_marked(name), choices);
    Ok(Some(Wanted1 { key, test }))
}

/// That a value is one of these, or none of them.
fn test_of(is_marked: bool, choices: Choices) -> Test
    ensures { result ≡ asked.test_of is_marked choices }
{
    if is_marked {
        Test::Outside(choices)
    } else {
        Test::Among(choices)
    }
}

/// The key that a name asks of.
pub fn asked_key(name: &str) -> Option<Key>
    ensures { result ≡ grammar.asked_key name.now }
{
    Key::of(unmarked(name))
}

/// The key of edition 1 that a name asks of.
pub fn asked_key1(name: &str) -> Option<Key1>
    ensures { result ≡ grammar.asked_key1 name.now }
{
    Key1::of(unmarked(name))
}

/// Whether a `!` stands after a name: other values are asked for than those that follow.
fn is_marked(name: &str) -> bool
    ensures { result ≡ grammar.is_marked name.now }
{
    matches!(name.as_bytes(), [.., b'!'])
}

/// A name without the `!` after it.
fn unmarked(name: &str) -> &str
    ensures { result.now ≡ grammar.unmarked name.now }
{
    match name.strip_suffix('!') {
        Some(front) => front,
        None => name,
    }
}
