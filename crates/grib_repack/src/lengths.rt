//! How long a message is that is put together again.

ghost use Rattle.std.specs.Prelude.{◌≡◌, ◌≤◌, ◌+◌, ℕ, List, length, sum_by};
ghost use Rattle.grib_packing.specs.declared.written.Packed as packed_packing;
ghost use Rattle.grib2_message.specs.Assembled.{assembled_with, IsShort};
ghost use Rattle.grib2_message.specs.Fields.{field_count, part_octets};
ghost use Rattle.grib2_message.specs.Message.{IsAnyMessage};
ghost use Rattle.grib_repack.specs.Lengths as definitions;

use grib_packing::Packed;
use grib2_message::ReadableMessage;

/// How many octets of a message stay where the Sections 5, 6 and 7 of its fields become others. With the octets of
/// those others it is the length of the message that is put together, also where its Sections 3 become others
/// that are as long. It takes no memory.
pub fn kept_length(message: &ReadableMessage<'_>) -> u64
    ensures kept { result ≡ definitions.kept_length message.now }
    ensures whole { (grid : List ℕ → List ℕ) (parts : List packed_packing.Packed) → length parts ≡ field_count message.now
        → ((i : ℕ) → 1 ≤ i → i ≤ field_count message.now
        → length (grid (part_octets message.now i 3)) ≡ length (part_octets message.now i 3))
        → length (assembled_with grid message.now parts) ≡ result + sum_by definitions.packed_length parts }
    ensures few { result ≤ 268435456 }
{
    let octets = message.octets();
    let mut total = octets.len() as u64;
    for before in 0..message.fields() {
        total -= own_length(message, before + 1);
    }
    total
}

/// How many octets the Sections 5, 6 and 7 of a field have, counted from 1.
fn own_length(message: &ReadableMessage<'_>, field: u32) -> u64
    requires message { IsAnyMessage message.now }
    requires first { 1 ≤ field }
    requires last { field ≤ field_count message.now }
    ensures { result ≡ definitions.own_length message.now field }
{
    let (Some(section5), Some(section6), Some(section7)) = (
        message.part(field, 5),
        message.part(field, 6),
        message.part(field, 7),
    ) else {
        unreachable!();
    };
    section5.octets.len() as u64 + section6.octets.len() as u64 + section7.octets.len() as u64
}

/// How many octets these sections of a field have.
pub fn packed_length(part: &Packed) -> u64
    requires { IsShort part.now }
    ensures { result ≡ definitions.packed_length part.now }
{
    part.section5.as_slice().len() as u64
        + part.section6.as_slice().len() as u64
        + part.section7.as_slice().len() as u64
}
