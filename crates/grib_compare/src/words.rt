//! Fields side by side by the words of their points.

ghost use Rattle.std.specs.Prelude.{◌≡◌, ◌≤◌, length, IfOk, IfSome};
ghost use Rattle.grib_packing.specs.Representation.{Spelled};
ghost use Rattle.grib2_message.specs.Fields.{field_count, part_octets, meaning_of};
ghost use Rattle.grib_compare.specs.declared.comparison.Comparison.TheVariants.{Same};
ghost use Rattle.grib_compare.specs.Fields.{by_points, octet_from};
ghost use Rattle.grib_compare.specs.Words.{by_words};

use crate::comparison::Comparison;
use grib_packing::{Simple, numbers_of};
use grib_repack::point_words;
use grib2_message::ReadableMessage;
use std::alloc::{AllocError, Global};

/// The greatest number whose word is not that of a missing point.
const MOST: u64 = (1 << 32) - 3;

/// What is said of two fields, counted from 1, by their points alone, where both give them values by the same R, E and D
/// and each point has a word of its own; else nothing. Packed numbers of more than 32 bits are not looked at.
///
/// # Errors
///
/// There is no memory.
pub(crate) fn compare_words(
    alloc: Global,
    here: &ReadableMessage<'_>,
    field: u32,
    there: &ReadableMessage<'_>,
    other_field: u32,
) -> Result<Option<Comparison>, AllocError>
    requires first { 1 ≤ field }
    requires last { field ≤ field_count here.now }
    requires other_first { 1 ≤ other_field }
    requires other_last { other_field ≤ field_count there.now }
    ensures { IfOk result (λ found. IfSome found (λ comparison. comparison
        ≡ by_points (meaning_of here.now field) (meaning_of there.now other_field) Same)) }
{
    let left = representation(here, field);
    let right = representation(there, other_field);
    if left.reference != right.reference || left.e != right.e || left.d != right.d {
        return Ok(None);
    }
    if left.bits > 32 || right.bits > 32 {
        return Ok(None);
    }
    let here = point_words(alloc, here, field, &left)?;
    if here.greatest > MOST {
        return Ok(None);
    }
    let there = point_words(alloc, there, other_field, &right)?;
    if there.greatest > MOST {
        return Ok(None);
    }
    Ok(Some(beside(&here.words, &there.words)))
}

/// The numbers of the Section 5 of a field, counted from 1.
fn representation(message: &ReadableMessage<'_>, field: u32) -> Simple
    requires first { 1 ≤ field }
    requires last { field ≤ field_count message.now }
    ensures { Spelled result (part_octets message.now field 5) }
{
    let Some(section5) = message.part(field, 5) else {
        unreachable!();
    };
    numbers_of(section5.octets)
}

/// What is said of two fields by the words of their points.
fn beside(here: &[u32], there: &[u32]) -> Comparison
    ensures { result ≡ by_words here.now there.now }
{
    if here.len() != there.len() {
        return Comparison::Shape {
            here: here.len() as u64,
            there: there.len() as u64,
        };
    }
    match first_word(here, there) {
        None => Comparison::Same,
        Some(point) => Comparison::Differs { point },
    }
}

/// The number, from 1, of the first word that is not the same in both, of as many words.
fn first_word(left: &[u32], right: &[u32]) -> Option<u64>
    requires { length left.now ≡ length right.now }
    ensures { result ≡ octet_from 1 left.now right.now }
{
    for i in 0..left.len() {
        if left[i] != right[i] {
            return Some(i as u64 + 1);
        }
    }
    None
}
