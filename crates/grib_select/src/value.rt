//! The values of keys.

ghost use Rattle.std.specs.Prelude.{◌≡◌, ◌≢◌, ◌≤◌, length, IfSome};
ghost use Rattle.grib_keys.specs.Keys.{row_of, key_place};
ghost use Rattle.grib2_message.specs.Fields.{field_count};
ghost use Rattle.grib_select.specs.Changed.{key_octets};
ghost use Rattle.grib_select.specs.Values as definitions;
ghost use Rattle.grib_select.specs.Values.{key_value_of, HasKeys, IsWithin, octet_count};

use crate::number::is_all_ones;
use grib_bits::{signed_of, u16_at, uint_at};
use grib_keys::{Key, Kind, Layout, Octets, Value};
use grib_packing::is_opaque;
use grib2_grids::is_opaque_grid;
use grib2_message::Message;
use grib2_products::is_opaque_product;

/// The value that a key has in a field, counted from 1: the number at its place in the section that is in
/// force for the field, or missing; `None` exactly where the section has no such key by its template and the
/// number of its time ranges.
pub fn key_value(message: &Message<'_>, field: u32, key: Key) -> Option<Value>
    requires first { 1 ≤ field }
    requires last { field ≤ field_count message.now }
    ensures { result ≡ key_value_of message.now field key }
{
    let row = key.row();
    let section = key_section(message, field, row.section);
    let place = place_in(section, key)?;
    Some(value_at(row.kind, section, &place))
}

/// The section with this number, 0, 1, 3, 4 or 5, that is in force for a field.
fn key_section<'a>(message: &Message<'a>, field: u32, number: u8) -> &'a [u8]
    requires first { 1 ≤ field }
    requires last { field ≤ field_count message.now }
    requires high { number ≤ 5 }
    requires present { number ≢ 2 }
    ensures section { result.now ≡ definitions.key_section message.now field number }
    ensures keys { HasKeys number result.now }
{
    if number == 0 {
        return &message.octets()[..16];
    }
    let Some(section) = message.part(field, number) else {
        unreachable!();
    };
    section.octets
}

/// The number of the template of a section with this number, 0 for Sections 0 and 1, which have none.
fn template_of(number: u8, section: &[u8]) -> u16
    requires { HasKeys number section.now }
    ensures { result ≡ definitions.template_of number section.now }
{
    match number {
        3 => u16_at(section, 13),
        4 => u16_at(section, 8),
        5 => u16_at(section, 10),
        _ => 0,
    }
}

/// How many time ranges a section with this number and template has: none but in Section 4.
fn ranges_of(number: u8, template: u16, section: &[u8]) -> u8
    requires keys { HasKeys number section.now }
    requires template { template ≡ definitions.template_of number section.now }
    ensures { result ≡ definitions.ranges_of number section.now }
{
    match (number, template) {
        (4, 8) => section[41],
        (4, 11) => section[44],
        _ => 0,
    }
}

/// Whether a section with this number is opaque. Sections 0 and 1 never are.
fn is_opaque_section(number: u8, section: &[u8]) -> bool
    requires { HasKeys number section.now }
    ensures { result ≡ definitions.is_opaque number section.now }
{
    match number {
        3 => is_opaque_grid(section),
        4 => is_opaque_product(section),
        5 => is_opaque(section),
        _ => false,
    }
}

/// The layout of a section with this number.
fn layout_of(number: u8, section: &[u8]) -> Layout
    requires { HasKeys number section.now }
    ensures { result ≡ definitions.layout_of number section.now }
{
    let template = template_of(number, section);
    let is_opaque = is_opaque_section(number, section);
    let ranges = ranges_of(number, template, section);
    Layout {
        template,
        is_opaque,
        ranges,
    }
}

/// Where the key stands in a section with its number, `None` where the section lacks it.
pub(crate) fn place_in(section: &[u8], key: Key) -> Option<Octets>
    requires { HasKeys (row_of key).section section.now }
    ensures place { result
        ≡ key_place key (definitions.layout_of (row_of key).section section.now) }
    ensures within { IfSome result (λ place. IsWithin (length section.now) place) }
    ensures size { IfSome result (λ place. octet_count place ≡ key_octets key) }
{
    let row = key.row();
    row.place.octets(layout_of(row.section, section))
}

/// The value of a key of this kind at this place of its section.
fn value_at(kind: Kind, section: &[u8], place: &Octets) -> Value
    requires { IsWithin (length section.now) place.now }
    ensures { result ≡ definitions.value_at kind section.now place.now }
{
    let count = place.count();
    let raw = uint_at(section, place.first, count);
    let octets = count as u32;
    if kind.may_be_missing && is_all_ones(u64::from(raw), octets) {
        return Value::Missing;
    }
    if kind.is_signed {
        return Value::Number(signed_of(u64::from(raw), 8 * octets));
    }
    Value::Number(i64::from(raw))
}
