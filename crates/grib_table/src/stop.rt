//! Why no table is read.

ghost use Rattle.std.specs.Prelude.{◌≡◌};
ghost use Rattle.grib_table.specs.Tabled.{stop_of_fault, stop_of_read};
ghost use Rattle.grib_table.specs.Together.{table_stop};

use grib_io::ReadStop;
use grib_params::TableFault;
use grib_reasons::TableRefusal;
use thiserror::Error;

/// Why no table is read.
#[derive(Clone, Copy, Debug, PartialEq, Eq, Error)]
pub enum TableStop {
    /// The name is absent, or what stands under it is no table.
    #[error("{0}")]
    Refused(TableRefusal),
    /// The shelf failed.
    #[error("shelf fault")]
    ShelfFault,
    /// There is no memory.
    #[error("out of memory")]
    Memory,
}

impl From<ReadStop> for TableStop {
    ghost from_gives = { λ read stop. stop ≡ stop_of_read read };

    fn from(stop: ReadStop) -> TableStop {
        match stop {
            ReadStop::Absent => TableStop::Refused(TableRefusal::Absent),
            ReadStop::Failed => TableStop::ShelfFault,
            ReadStop::Memory => TableStop::Memory,
        }
    }
}

impl From<TableFault> for TableStop {
    ghost from_gives = { λ fault stop. stop ≡ stop_of_fault fault };

    fn from(fault: TableFault) -> TableStop {
        match fault {
            TableFault::TooLarge => TableStop::Refused(TableRefusal::TooLarge),
            TableFault::Row(number) => TableStop::Refused(TableRefusal::Row(number)),
            TableFault::Duplicate(number) => TableStop::Refused(TableRefusal::Duplicate(number)),
            TableFault::Memory => TableStop::Memory,
        }
    }
}

/// Why no tables are read.
#[derive(Clone, Copy, Debug, PartialEq, Eq, Error)]
pub enum TablesStop {
    /// The name of the parameter table or of the table of names is absent, or what stands under it is no table.
    #[error("{0}")]
    Refused(TableRefusal),
    /// The name of the table of surfaces is absent, or what stands under it is no table.
    #[error("surfaces: {0}")]
    SurfacesRefused(TableRefusal),
    /// The shelf failed.
    #[error("shelf fault")]
    ShelfFault,
    /// There is no memory.
    #[error("out of memory")]
    Memory,
}

impl From<TableStop> for TablesStop {
    ghost from_gives = { λ table stop. stop ≡ table_stop table };

    fn from(stop: TableStop) -> TablesStop {
        match stop {
            TableStop::Refused(refusal) => TablesStop::Refused(refusal),
            TableStop::ShelfFault => TablesStop::ShelfFault,
            TableStop::Memory => TablesStop::Memory,
        }
    }
}
