//! The new values that the arguments of `set` give keys.

ghost use Rattle.std.specs.Prelude.{◌≡◌, map, string_bytes, IfOk};
ghost use Rattle.grib_words.specs.Words as asked;

use crate::values::key_value;
use grib_keys::{Change, Key};
use grib_numbers::signed_number;
use grib1_sections::Key1;
use grib1_select::Change1;
use std::alloc::{AllocError, Global};

/// The changes of the arguments, in their order.
pub fn changes_of(alloc: Global, words: &[String]) -> Result<Vec<Change>, AllocError>
    ensures { IfOk result (λ v. v.items ≡ asked.changes_of (map string_bytes words.now)) }
{
    words
        .iter()
        .filter_map(|word| change_of(word.as_str()))
        .collect(alloc)
}

/// The key of an argument's name with the value that the argument gives it, if there is such a key and it is a value.
fn change_of(word: &str) -> Option<Change>
    ensures { result ≡ asked.change_of word.now }
{
    let (name, value) = word.split_once('=')?;
    let key = Key::of(name)?;
    let value = key_value(value)?;
    Some(Change { key, value })
}

/// The changes of keys of edition 1 that the arguments give, in their order.
pub fn changes1_of(alloc: Global, words: &[String]) -> Result<Vec<Change1>, AllocError>
    ensures { IfOk result (λ v. v.items ≡ asked.changes1_of (map string_bytes words.now)) }
{
    words
        .iter()
        .filter_map(|word| change1_of(word.as_str()))
        .collect(alloc)
}

/// The key of edition 1 of an argument's name with the number that the argument gives it, if there is such a key and it
/// is a number.
fn change1_of(word: &str) -> Option<Change1>
    ensures { result ≡ asked.change1_of word.now }
{
    let (name, value) = word.split_once('=')?;
    let key = Key1::of(name)?;
    let value = signed_number(value)?;
    Some(Change1 { key, value })
}
