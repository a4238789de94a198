//! `filter`: the messages and fields that fulfil conditions.

ghost use Rattle.std.specs.Prelude.{◌≡◌, ◌≤◌};
ghost use Rattle.grib2_message.specs.Fields.{field_count};
ghost use Rattle.grib_text.specs.Named.{has_field_name_of};

use crate::changing::Changer;
use crate::choosing::{Chooser, write_chosen};
use grib_command::{Answered, Name, written};
use grib_io::Sink;
use grib_names::NameTable;
use grib_select::{Wanted, matches};
use grib_text::has_field_name;
use grib2_message::Message;
use std::alloc::Global;

/// The command `filter`.
#[derive(Debug, Drop)]
pub struct Filtering<'a> {
    /// The keys with what is asked of their values.
    pub conditions: &'a [Wanted],
}

/// The command `filter` by names.
#[derive(Debug, Drop)]
pub struct FilteringNamed<'a> {
    /// The keys with what is asked of their values.
    pub conditions: &'a [Wanted],
    /// The names of which a field is to have one.
    pub wanted: &'a [Name],
    /// The table that names parameters.
    pub names: &'a NameTable,
}

impl Chooser for Filtering<'_> {
    ghost use Rattle.grib_edit.specs.Filtering.{fulfils};

    ghost chosen = { λ filtering. fulfils filtering.conditions.now };

    fn chooses(&self, message: &Message<'_>, field: u32) -> bool {
        matches(message, field, self.conditions)
    }
}

impl Changer for Filtering<'_> {
    ghost use Rattle.grib_edit.specs.Filtering.{filter_command, filter_lawful};

    ghost gives = { λ filtering. (filter_command filtering.conditions.now).second };

    ghost lawful = { λ filtering. filter_lawful filtering.conditions.now };

    fn change<T: Sink>(&self, alloc: Global, message: &Message<'_>, output: &mut T) -> Answered {
        written(write_chosen(alloc, self, message, output))
    }
}

impl Chooser for FilteringNamed<'_> {
    ghost use Rattle.grib_edit.specs.FilteringNamed.{fulfils_named};

    ghost chosen = { λ filtering. fulfils_named filtering.conditions.now filtering.wanted.now filtering.names.now };

    fn chooses(&self, message: &Message<'_>, field: u32) -> bool {
        matches(message, field, self.conditions)
            && is_named(self.names, message, field, self.wanted)
    }
}

impl Changer for FilteringNamed<'_> {
    ghost use Rattle.grib_edit.specs.FilteringNamed.{filter_named_command, filter_named_lawful};

    ghost gives = { λ filtering. (filter_named_command filtering.conditions.now filtering.wanted.now filtering.names.now).second };

    ghost lawful = { λ filtering. filter_named_lawful filtering.conditions.now filtering.wanted.now filtering.names.now };

    fn change<T: Sink>(&self, alloc: Global, message: &Message<'_>, output: &mut T) -> Answered {
        written(write_chosen(alloc, self, message, output))
    }
}

/// Whether a field, counted from 1, has one of these names in the table.
fn is_named(names: &NameTable, message: &Message<'_>, field: u32, wanted: &[Name]) -> bool
    requires first { 1 ≤ field }
    requires last { field ≤ field_count message.now }
    ensures { result ≡ has_field_name_of names.now message.now field wanted.now }
{
    for name in wanted {
        if has_field_name(names, message, field, name.as_str()) {
            return true;
        }
    }
    false
}
