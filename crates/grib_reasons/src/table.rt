//! Why a table that is handed in is not taken.

ghost use Rattle.std.specs.Prelude.{Some};
ghost use Rattle.grib_reasons.specs.Tables.{table_text};

use std::error::Error;
use std::fmt;

/// Why a parameter table is refused. Records are counted from 1.
#[derive(Clone, Copy, Debug, PartialEq, Eq)]
pub enum TableRefusal {
    /// The shelf has no such name.
    Absent,
    /// The table has more octets than are read.
    TooLarge,
    /// This record is not a row of the table.
    Row(u64),
    /// This record has the centre, the version and the parameter of an earlier one.
    Duplicate(u64),
}

impl fmt::Display for TableRefusal {
    ghost output = { λ refusal. Some (table_text refusal) };

    fn fmt<W: fmt::Write>(&self, f: &mut fmt::Formatter<W>) -> fmt::Result {
        match *self {
            TableRefusal::Absent => f.write_str("table absent"),
            TableRefusal::TooLarge => f.write_str("table too large"),
            TableRefusal::Row(number) => write!(f, "table row {number}"),
            TableRefusal::Duplicate(number) => write!(f, "table duplicate {number}"),
        }
    }
}

impl Error for TableRefusal {}
