//! The names of the fields of a message.

ghost use Rattle.std.specs.Prelude.{◌≡◌, ◌≤◌, option_map};
ghost use Rattle.grib2_message.specs.Fields.{field_count};
ghost use Rattle.grib_text.specs.Named as named;

use grib_names::NameTable;
use grib2_message::{Message, field_summary};

/// The name of the parameter of a field, counted from 1; `None` where no record of the table has its discipline,
/// category and number.
pub fn field_name<'a>(names: &'a NameTable, message: &Message<'_>, field: u32) -> Option<&'a str>
    requires first { 1 ≤ field }
    requires last { field ≤ field_count message.now }
    ensures { option_map (λ name. name.now) result ≡ named.field_name names.now message.now field }
{
    let summary = field_summary(message, field);
    names.name_of(summary.discipline, summary.category, summary.number)
}

/// Whether a field, counted from 1, has this name.
pub fn has_field_name(names: &NameTable, message: &Message<'_>, field: u32, name: &str) -> bool
    requires first { 1 ≤ field }
    requires last { field ≤ field_count message.now }
    ensures { result ≡ named.has_field_name names.now message.now field name.now }
{
    match field_name(names, message, field) {
        Some(given) => name == given,
        None => false,
    }
}
