//! Lines of fields with columns.

ghost use Rattle.std.specs.Prelude.{◌≡◌, ◌≤◌, ◌++◌, option_copied, option_map, string_bytes, IfOk, OnOk};
ghost use Rattle.grib2_message.specs.Fields.{field_count};
ghost use Rattle.grib_text.specs.Columns as columns;
ghost use Rattle.grib_text.specs.Columns.{entries_of};
ghost use Rattle.grib_text.specs.Named as named;

use crate::cell::{cell_of, cell1_of, write_cell};
use crate::column::{Column, LineForm};
use crate::edition1::list_text1;
use crate::first::keys_text1;
use crate::listed::list_text;
use crate::named::field_name;
use crate::second::keys_text;
use grib_names::NameTable;
use grib1_sections::Message1;
use grib2_message::Message;
use std::alloc::{AllocError, Global};

/// What the lines of fields are made of: their form, their columns, and the table of the names of their parameters, if
/// these are asked for.
#[derive(Clone, Copy, Debug)]
pub struct Lining<'a> {
    pub form: LineForm,
    pub columns: &'a [Column],
    pub names: Option<&'a NameTable>,
}

impl Lining<'_> {
    /// The line of a field, from 1, of the message of edition 2 with this number, from 1, that stands after `before`
    /// octets of the input. The only error is that there is no memory.
    pub fn line(
        &self,
        alloc: Global,
        number: u64,
        before: u64,
        message: &Message<'_>,
        field: u32,
    ) -> Result<Vec<u8>, AllocError>
        requires first { 1 ≤ field }
        requires last { field ≤ field_count message.now }
        ensures { IfOk result (λ line. line.items ≡ columns.line_of self.now.form self.now.columns.now
            (entries_of (option_copied self.now.names)) number before message.now field) }
    {
        let mut line = head(alloc, self.form, number, message, field)?;
        self.write_columns(&mut line, before, message, field)?;
        write_name(&mut line, self.name(message, field))?;
        line.push('\n')?;
        Ok(line.into_bytes())
    }

    /// The line of the message of edition 1 with this number, from 1, that stands after `before` octets of the input.
    /// The only error is that there is no memory.
    pub fn line1(
        &self,
        alloc: Global,
        number: u64,
        before: u64,
        message: &Message1<'_>,
    ) -> Result<Vec<u8>, AllocError>
        ensures { IfOk result (λ line. line.items
            ≡ columns.line1_of self.now.form self.now.columns.now number before message.now) }
    {
        let mut line = head1(alloc, self.form, number, message)?;
        self.write_columns1(&mut line, before, message)?;
        line.push('\n')?;
        Ok(line.into_bytes())
    }

    /// Writes what each column has of a field.
    fn write_columns(
        &self,
        line: &mut String,
        before: u64,
        message: &Message<'_>,
        field: u32,
    ) -> Result<(), AllocError>
        requires first { 1 ≤ field }
        requires last { field ≤ field_count message.now }
        ensures { OnOk result (string_bytes line.new ≡ string_bytes line.old ++ columns.columns_text self.now.form
            (columns.cell_of before message.now field) self.now.columns.now) }
    {
        for column in self.columns {
            write_cell(
                line,
                self.form,
                *column,
                cell_of(before, message, field, *column),
            )?;
        }
        Ok(())
    }

    /// Writes what each column has of a message of edition 1.
    fn write_columns1(
        &self,
        line: &mut String,
        before: u64,
        message: &Message1<'_>,
    ) -> Result<(), AllocError>
        ensures { OnOk result (string_bytes line.new ≡ string_bytes line.old ++ columns.columns_text self.now.form
            (columns.cell1_of before message.now) self.now.columns.now) }
    {
        for column in self.columns {
            write_cell(line, self.form, *column, cell1_of(before, message, *column))?;
        }
        Ok(())
    }

    /// The name of the parameter of a field, if the table has one.
    fn name(&self, message: &Message<'_>, field: u32) -> Option<&str>
        requires first { 1 ≤ field }
        requires last { field ≤ field_count message.now }
        ensures { option_map (λ name. name.now) result
            ≡ named.field_name (entries_of (option_copied self.now.names)) message.now field }
    {
        field_name(self.names?, message, field)
    }
}

/// What the line of a field begins with.
fn head(
    alloc: Global,
    form: LineForm,
    number: u64,
    message: &Message<'_>,
    field: u32,
) -> Result<String, AllocError>
    requires first { 1 ≤ field }
    requires last { field ≤ field_count message.now }
    ensures { IfOk result (λ text. string_bytes text ≡ columns.head_text form message.now number field) }
{
    match form {
        LineForm::List => list_text(alloc, message, number, field),
        LineForm::Keys => keys_text(alloc, message, number, field),
        LineForm::Show => format!(in alloc; "{number}.{field}"),
    }
}

/// What the line of a message of edition 1 begins with.
fn head1(
    alloc: Global,
    form: LineForm,
    number: u64,
    message: &Message1<'_>,
) -> Result<String, AllocError>
    ensures { IfOk result (λ text. string_bytes text ≡ columns.head_text1 form message.now number) }
{
    match form {
        LineForm::List => list_text1(alloc, message, number),
        LineForm::Keys => keys_text1(alloc, message, number),
        LineForm::Show => format!(in alloc; "{number}.1"),
    }
}

/// Writes a name after a space, nothing where there is none.
fn write_name(line: &mut String, name: Option<&str>) -> Result<(), AllocError>
    ensures { OnOk result (string_bytes line.new
        ≡ string_bytes line.old ++ columns.name_text (option_map (λ given. given.now) name.entry)) }
{
    match name {
        Some(name) => write!(line, " name={name}"),
        None => Ok(()),
    }
}
