//! Messages of edition 2 that several modules take.

ghost use Rattle.std.specs.Prelude.{◌≡◌, IfOk};

use grib_base::{Profile, ReadFault};
use grib_bits::u8_at;
pub(crate) use grib_samples::{
    FIRST_VALUES, FOUR_NUMBERS, FOUR_VALUES, GRID, IDENTIFICATION, NO_BITMAP, OWN_BITMAP, PLAIN,
    PRODUCT, SAME_BITMAP, SECOND_VALUES, THREE_NUMBERS, TWO_FIELDS, edited, message_of,
};
use grib2_message::{Message, ReadableMessage, read_message};
use std::alloc::{AllocError, Global};

/// Reads a message; no memory stands for octets that do not begin one of edition 2.
pub(crate) fn read(alloc: Global, octets: &[u8]) -> Result<Message<'_>, ReadFault> {
    if octets.len() < 8 || !octets.starts_with(b"GRIB") || u8_at(octets, 8) != 2 {
        return Err(ReadFault::Memory);
    }
    read_message(alloc, Profile::Stated, octets)
}

/// The message, whose values can be read; no memory stands for one with an opaque packing.
pub(crate) fn readable<'a>(message: &'a Message<'a>) -> Result<ReadableMessage<'a>, AllocError>
    ensures { IfOk result (λ readable. readable ≡ message.now) }
{
    match ReadableMessage::of(message) {
        Ok(readable) => Ok(readable),
        Err(_) => Err(AllocError),
    }
}
