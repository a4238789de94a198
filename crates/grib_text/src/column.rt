//! What a line of a field is made of.

ghost use Rattle.std.specs.Prelude.{◌≡◌};
ghost use Rattle.grib_text.specs.Columns.{column_name};

use grib_base::List;
use grib_keys::Key;
use grib1_sections::Key1;

/// What a line of a field has first.
#[derive(Clone, Copy, Debug, PartialEq, Eq)]
pub enum LineForm {
    /// The line of `list`.
    List,
    /// The line of `keys`, with each key that the field has.
    Keys,
    /// The number of the message and that of the field alone.
    Show,
}

/// What a line has of a field behind that.
#[derive(Clone, Copy, Debug, PartialEq, Eq)]
pub enum Column {
    /// The value of a key of edition 2.
    Key(Key),
    /// The value of a key of edition 1.
    First(Key1),
    /// How many octets of the input stand before the field's message.
    At,
    /// How many octets the field's message has.
    Octets,
}

impl Column {
    /// The name of the column.
    pub fn name(&self) -> &'static str
        ensures { result.now ≡ column_name self.now }
    {
        match self {
            Column::Key(key) => key.name(),
            Column::First(key) => key.name(),
            Column::At => "at",
            Column::Octets => "octets",
        }
    }
}

/// Columns in their order.
pub type Columns = List<Column>;
