//! The reference value and the scale factors of a field.

ghost use Rattle.std.specs.Prelude.{◌≡◌, ◌≤◌, false};
ghost use Rattle.std.specs.List.{list_any};
ghost use Rattle.grib_packing.specs.Entries.{is_out_of_range};
ghost use Rattle.grib2_message.specs.Fields.{field_count, column_of};
ghost use Rattle.grib2_message.specs.Message.{FieldReads};
ghost use Rattle.grib1_sections.specs.Column.{column1_of};

use grib_bits::{u16_at, u32_at};
use grib_packing::numbers_of;
use grib1_sections::Message1;
use grib2_message::ReadableMessage;

/// The numbers that give the points of a field values, as they stand.
#[derive(Clone, Copy, Debug, PartialEq, Eq)]
pub struct Scaling {
    /// The word of the reference value R.
    pub reference: u32,
    /// The binary scale factor E, sign and magnitude.
    pub e: u16,
    /// The decimal scale factor D, sign and magnitude.
    pub d: u16,
}

/// Those of a field of edition 2: octets 12-19 of Section 5. Fields count from 1. No scaled integer
/// of the field is outside plus and minus 2^60.
pub fn field_scaling(message: &ReadableMessage<'_>, field: u32) -> Scaling
    requires first { 1 ≤ field }
    requires last { field ≤ field_count message.now }
    ensures reference { result.reference ≡ (column_of message.now field).reference }
    ensures e { result.e ≡ (column_of message.now field).e }
    ensures d { result.d ≡ (column_of message.now field).d }
    ensures small { list_any is_out_of_range (column_of message.now field).points ≡ false }
    ensures passes { FieldReads message.now field }
{
    let Some(section5) = message.part(field, 5) else {
        unreachable!();
    };
    let numbers = numbers_of(section5.octets);
    Scaling {
        reference: numbers.reference,
        e: numbers.e,
        d: numbers.d,
    }
}

/// Those of a message of edition 1: octets 5-10 of Section 4 and 27-28 of Section 1. No scaled
/// integer of the message is outside plus and minus 2^60.
pub fn message_scaling1(message: &Message1<'_>) -> Scaling
    ensures reference { result.reference ≡ (column1_of message.now).reference }
    ensures e { result.e ≡ (column1_of message.now).e }
    ensures d { result.d ≡ (column1_of message.now).d }
    ensures small { list_any is_out_of_range (column1_of message.now).points ≡ false }
{
    let (Some(section1), Some(section4)) = (message.section(1), message.section(4)) else {
        unreachable!();
    };
    Scaling {
        reference: u32_at(section4, 7),
        e: u16_at(section4, 5),
        d: u16_at(section1, 27),
    }
}
