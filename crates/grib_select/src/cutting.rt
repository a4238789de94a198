//! A field as a message of its own.

ghost use Rattle.std.specs.Prelude.{◌≡◌, ◌+◌, ◌≤◌, length, IfOk};
ghost use Rattle.grib2_message.specs.Fields.{field_count};
ghost use Rattle.grib2_message.specs.Message.{IsAnyMessage};
ghost use Rattle.grib_select.specs.Single as definitions;
ghost use Rattle.grib_select.specs.Single.{first_parts, single_of};

use grib_base::MOST_OCTETS;
use grib2_message::Message;
use std::alloc::{AllocError, Global};

/// The number of the section with the bitmap.
const BITMAP: u8 = 6;

/// A field, counted from 1, as a message of its own. The sections that are in force for it are copied octet
/// for octet, except that a bitmap that repeats an earlier one is given with its bits. Section 0 has the
/// new total length.
///
/// # Errors
///
/// There is no memory.
pub fn single(alloc: Global, message: &Message<'_>, field: u32) -> Result<Vec<u8>, AllocError>
    requires first { 1 ≤ field }
    requires last { field ≤ field_count message.now }
    ensures { IfOk result (λ octets. octets.items ≡ single_of message.now field) }
{
    let octets = message.octets();
    let total = single_length(message, field);
    let mut out = Vec::with_capacity(alloc, total as usize)?;
    out.extend_from_slice(&octets[..8])?;
    out.extend_from_slice(&total.to_be_bytes())?;
    for number in 1..8 {
        out.extend_from_slice(field_part(message, field, number))?;
    }
    out.extend_from_slice(b"7777")?;
    Ok(out)
}

/// The number of octets of that message.
fn single_length(message: &Message<'_>, field: u32) -> u64
    requires message { IsAnyMessage message.now }
    requires first { 1 ≤ field }
    requires last { field ≤ field_count message.now }
    ensures { result ≡ 16 + length (first_parts message.now field 7) + 4 }
{
    let mut total = 20;
    for number in 1..8 {
        total += field_part(message, field, number).len() as u64;
    }
    total
}

/// What stands in it for the section with this number, nothing where Section 2 is absent.
fn field_part<'a>(message: &Message<'a>, field: u32, number: u8) -> &'a [u8]
    requires message { IsAnyMessage message.now }
    requires first { 1 ≤ field }
    requires last { field ≤ field_count message.now }
    requires low { 1 ≤ number }
    requires high { number ≤ 7 }
    ensures octets { result.now ≡ definitions.field_part message.now field number }
    ensures short { length result.now ≤ MOST_OCTETS }
{
    if number == BITMAP {
        return message.bitmap(field).octets;
    }
    match message.part(field, number) {
        Some(section) => section.octets,
        None => b"",
    }
}
