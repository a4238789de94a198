//! The octets under a name are read, and read as a table.

ghost use Rattle.std.specs.Prelude.{◌≡◌, Some, option_copied};
ghost use Rattle.grib_io.specs.Shelves.{Stays};
ghost use Rattle.grib_table.specs.Tabled.{CountsTable};
ghost use Rattle.grib_table.specs.Taken.{Takes};

use crate::stop::TableStop;
use grib_io::{Shelf, octets_under};
use grib_params::{FromRecords, MOST_OCTETS, read_rows};
use std::alloc::Global;

/// One octet more than a table may have.
const MOST: usize = MOST_OCTETS + 1;

/// Reads the table that stands on the shelf under the name, as far as one octet more than a table may have; where no
/// name is given, the table of no records. The shelf keeps what it holds.
///
/// # Errors
///
/// The name is absent, what stands there is no table, the shelf failed, or there is no memory.
pub(crate) fn table_under<R: FromRecords, H: Shelf>(
    alloc: Global,
    name: Option<&str>,
    shelf: &mut H,
) -> Result<R, TableStop>
    ensures read { Takes R.none R.good R.IsFault R.verdict result (H.contents shelf.old) (option_copied name.entry) }
    ensures kept { Stays (H.contents shelf.old) (H.contents shelf.new) }
    ensures counted { CountsTable result (H.faults shelf.old) (H.faults shelf.new) }
{
    match name {
        Some(name) => read_table(alloc, name, shelf),
        None => Ok(R::empty(alloc)),
    }
}

/// Reads the table that stands on the shelf under this name.
fn read_table<R: FromRecords, H: Shelf>(
    alloc: Global,
    name: &str,
    shelf: &mut H,
) -> Result<R, TableStop>
    ensures read { Takes R.none R.good R.IsFault R.verdict result (H.contents shelf.old) (Some name.now) }
    ensures kept { Stays (H.contents shelf.old) (H.contents shelf.new) }
    ensures counted { CountsTable result (H.faults shelf.old) (H.faults shelf.new) }
{
    let text = octets_under(alloc, name, Some(MOST), shelf)?;
    Ok(read_rows(alloc, text.as_slice())?)
}
