//! What a column has of a field.

ghost use Rattle.std.specs.Prelude.{◌≡◌, ◌≤◌, ◌++◌, Some, string_bytes, OnOk};
ghost use Rattle.grib2_message.specs.Fields.{field_count};
ghost use Rattle.grib_text.specs.Cells.{cell_text};
ghost use Rattle.grib_text.specs.Columns as columns;

use crate::column::{Column, LineForm};
use grib_keys::Value;
use grib_select::key_value;
use grib1_sections::Message1;
use grib2_message::Message;
use std::alloc::AllocError;
use std::fmt;

/// What a column has of a field.
#[derive(Clone, Copy, Debug)]
pub(crate) enum Cell {
    /// The field does not have the key.
    Absent,
    /// The value of a key.
    Value(Value),
    /// A number of octets.
    Count(u64),
}

impl fmt::Display for Cell {
    ghost output = { λ cell. Some (cell_text cell) };

    fn fmt<W: fmt::Write>(&self, f: &mut fmt::Formatter<W>) -> fmt::Result {
        match *self {
            Cell::Absent => f.write_str("-"),
            Cell::Value(value) => write!(f, "{value}"),
            Cell::Count(count) => write!(f, "{count}"),
        }
    }
}

/// What a column has of a field, from 1, of a message that stands after `before` octets of the input.
pub(crate) fn cell_of(before: u64, message: &Message<'_>, field: u32, column: Column) -> Cell
    requires first { 1 ≤ field }
    requires last { field ≤ field_count message.now }
    ensures { cell_text result ≡ columns.cell_of before message.now field column }
{
    match column {
        Column::Key(key) => match key_value(message, field, key) {
            Some(value) => Cell::Value(value),
            None => Cell::Absent,
        },
        Column::First(_) => Cell::Absent,
        Column::At => Cell::Count(before),
        Column::Octets => Cell::Count(message.octets().len() as u64),
    }
}

/// What a column has of a message of edition 1 that stands after `before` octets of the input.
pub(crate) fn cell1_of(before: u64, message: &Message1<'_>, column: Column) -> Cell
    ensures { cell_text result ≡ columns.cell1_of before message.now column }
{
    match column {
        Column::Key(_) => Cell::Absent,
        Column::First(key) => Cell::Value(Value::Number(message.number1(key))),
        Column::At => Cell::Count(before),
        Column::Octets => Cell::Count(message.octets().len() as u64),
    }
}

/// Writes what a column has after a space, and after its name but in a line of values alone.
pub(crate) fn write_cell(
    line: &mut String,
    form: LineForm,
    column: Column,
    cell: Cell,
) -> Result<(), AllocError>
    ensures { OnOk result (string_bytes line.new
        ≡ string_bytes line.old ++ columns.column_text form column (cell_text cell)) }
{
    let name = column.name();
    match form {
        LineForm::Show => write!(line, " {cell}"),
        _ => write!(line, " {name}={cell}"),
    }
}
