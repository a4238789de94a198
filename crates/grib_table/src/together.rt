//! The tables of a run, read one after the other.

ghost use Rattle.std.specs.Prelude.{◌≡◌, option_copied};
ghost use Rattle.grib_io.specs.Shelves.{Stays};
ghost use Rattle.grib_table.specs.Together as specs;
ghost use Rattle.grib_table.specs.Together.{CountsTables, ReadsTables, asked};

use crate::reading::table_under;
use crate::stop::{TableStop, TablesStop};
use grib_io::Shelf;
use grib_names::NameTable;
use grib_params::{SurfaceTable, Table};
use std::alloc::Global;

/// The tables of a run. One that is not asked for has nothing.
#[derive(Debug, Drop)]
pub struct Tables {
    /// What the parameters of edition 1 are in edition 2.
    pub parameters: Table,
    /// What those parameters are whose name says their level, with their surfaces.
    pub surfaces: SurfaceTable,
    /// The names of parameters of edition 2.
    pub names: NameTable,
}

/// Reads the tables that stand on the shelf under these names, one after the other: the parameter table, the table of
/// surfaces and the table of names, each where a name is given. The shelf keeps what it holds.
///
/// # Errors
///
/// The first name that is absent, or under which no such table stands; the shelf failed, or there is no memory.
pub fn read_tables<H: Shelf>(
    alloc: Global,
    parameters: Option<&str>,
    surfaces: Option<&str>,
    names: Option<&str>,
    shelf: &mut H,
) -> Result<Tables, TablesStop>
    ensures read { ReadsTables result (H.contents shelf.old)
        (asked (option_copied parameters.entry) (option_copied surfaces.entry) (option_copied names.entry)) }
    ensures kept { Stays (H.contents shelf.old) (H.contents shelf.new) }
    ensures counted { CountsTables result (H.faults shelf.old) (H.faults shelf.new) }
{
    let parameters: Table = table_under(alloc, parameters, shelf)?;
    let surfaces: SurfaceTable = match table_under(alloc, surfaces, shelf) {
        Ok(surfaces) => surfaces,
        Err(stop) => return Err(surfaces_stop(stop)),
    };
    let names: NameTable = table_under(alloc, names, shelf)?;
    Ok(Tables {
        parameters,
        surfaces,
        names,
    })
}

/// Why the table of surfaces is not read.
fn surfaces_stop(stop: TableStop) -> TablesStop
    ensures { result ≡ specs.surfaces_stop stop }
{
    match stop {
        TableStop::Refused(refusal) => TablesStop::SurfacesRefused(refusal),
        TableStop::ShelfFault => TablesStop::ShelfFault,
        TableStop::Memory => TablesStop::Memory,
    }
}
