//! The sections of a field.

ghost use Rattle.std.specs.Prelude.{◌≡◌, ◌≢◌, ◌≤◌, length};
ghost use Rattle.grib2_sections.specs.Head.{discipline};
ghost use Rattle.grib2_message.specs.Fields.{field_count, part_octets};
ghost use Rattle.grib2_message.specs.Message.{FieldReads};
ghost use Rattle.grib_demote.specs.Held.{Holds};

use grib_base::Section;
use grib_bits::u8_at;
use grib2_message::ReadableMessage;

/// The sections that are in force for a field, and the discipline of its message.
#[derive(Clone, Copy, Debug)]
pub(crate) struct Field<'a> {
    pub discipline: u8,
    pub identification: &'a [u8],
    /// Section 2, empty where there is none.
    pub local: &'a [u8],
    pub grid: &'a [u8],
    pub product: &'a [u8],
    pub packing: &'a [u8],
}

impl<'a> Field<'a> {
    /// Those of a field, counted from 1.
    pub(crate) fn of(message: &ReadableMessage<'a>, field: u32) -> Field<'a>
        requires first { 1 ≤ field }
        requires last { field ≤ field_count message.now }
        ensures discipline { result.discipline ≡ discipline message.now }
        ensures identification { result.identification.now ≡ part_octets message.now field 1 }
        ensures local { result.local.now ≡ part_octets message.now field 2 }
        ensures grid { result.grid.now ≡ part_octets message.now field 3 }
        ensures product { result.product.now ≡ part_octets message.now field 4 }
        ensures packing { result.packing.now ≡ part_octets message.now field 5 }
        ensures holds { Holds (part_octets message.now field 1) (part_octets message.now field 3)
            (part_octets message.now field 4) (part_octets message.now field 5) }
        ensures passes { FieldReads message.now field }
    {
        Field {
            discipline: u8_at(message.octets(), 7),
            identification: there(message, field, 1).octets,
            local: local_of(message, field),
            grid: there(message, field, 3).octets,
            product: there(message, field, 4).octets,
            packing: there(message, field, 5).octets,
        }
    }
}

/// The section with this number, not 2, which each field has.
pub(crate) fn there<'a>(message: &ReadableMessage<'a>, field: u32, number: u8) -> Section<'a>
    requires first { 1 ≤ field }
    requires last { field ≤ field_count message.now }
    requires low { 1 ≤ number }
    requires high { number ≤ 7 }
    requires present { number ≢ 2 }
    ensures octets { result.octets.now ≡ part_octets message.now field number }
    ensures passes { FieldReads message.now field }
{
    let Some(section) = message.part(field, number) else {
        unreachable!();
    };
    section
}

/// Section 2, empty where there is none.
fn local_of<'a>(message: &ReadableMessage<'a>, field: u32) -> &'a [u8]
    requires first { 1 ≤ field }
    requires last { field ≤ field_count message.now }
    ensures { result.now ≡ part_octets message.now field 2 }
{
    match message.part(field, 2) {
        Some(section) => section.octets,
        None => &[],
    }
}
