//! The values that an argument of `filter` asks for.

ghost use Rattle.std.specs.Prelude.{◌≡◌, option_map, IfOk};
ghost use Rattle.std.specs.List.{filter_map};
ghost use Rattle.grib_words.specs.Choices as definitions;

use crate::values::key_value;
use grib_keys::{Choice, Choices};
use grib_numbers::signed_number;
use std::alloc::{AllocError, Global};

/// Whether each element of a list with `,` between them is a value or a range.
pub fn is_test(text: &str) -> bool
    ensures { result ≡ definitions.is_test text.now }
{
    text.split(',').all(|element| choice_of(element).is_some())
}

/// The elements of a list, `None` where one is neither a value nor a range.
pub fn choices_of(alloc: Global, text: &str) -> Result<Option<Choices>, AllocError>
    ensures { IfOk result (λ found. found ≡ definitions.choices_of text.now) }
{
    if !is_test(text) {
        return Ok(None);
    }
    Ok(Some(Choices::of(elements_of(alloc, text)?)))
}

/// The elements of a list that are values or ranges.
fn elements_of(alloc: Global, text: &str) -> Result<Vec<Choice>, AllocError>
    ensures { IfOk result (λ v. v.items ≡ filter_map definitions.choice_of (definitions.elements text.now)) }
{
    text.split(',')
        .filter_map(|element| choice_of(element))
        .collect(alloc)
}

/// The values that an element asks for: `least..most`, or one value.
fn choice_of(text: &str) -> Option<Choice>
    ensures { result ≡ definitions.choice_of text.now }
{
    match text.split_once('.') {
        Some((least, rest)) => range_of(least, behind_dot(rest)?),
        None => Some(Choice::One(key_value(text)?)),
    }
}

/// What stands after a `.` at the front of a text.
fn behind_dot(text: &str) -> Option<&str>
    ensures { option_map (λ rest. rest.now) result ≡ definitions.behind_dot text.now }
{
    text.strip_prefix('.')
}

/// The numbers between two ends, of which one may be left out.
fn range_of(least: &str, most: &str) -> Option<Choice>
    ensures { result ≡ definitions.range_of least.now most.now }
{
    if least.is_empty() {
        return Some(Choice::UpTo(signed_number(most)?));
    }
    if most.is_empty() {
        return Some(Choice::From(signed_number(least)?));
    }
    between(signed_number(least)?, signed_number(most)?)
}

/// The numbers from one to another that is not below it.
fn between(least: i64, most: i64) -> Option<Choice>
    ensures { result ≡ definitions.between least most }
{
    if least <= most {
        Some(Choice::Between { least, most })
    } else {
        None
    }
}
