//! The tables that give a parameter of edition 1 its discipline, category and number of edition 2, and the
//! versions of the tables that these are of: one for parameters that are found by centre, version and
//! parameter, and one for those whose name says their level, which are found by the level too and have a
//! fixed surface of edition 2. Each is handed in as a text of records.
#![tactic(auto)]

mod fault;
pub mod laws;
mod matching;
mod number;
mod records;
mod row;
mod surface_row;
mod surfaces;
mod table;

pub use fault::TableFault;
pub use matching::TableMatch;
pub use records::{FromRecords, read_rows};
pub use row::{Target, number_at};
pub use surface_row::SurfaceTarget;
pub use surfaces::SurfaceTable;
pub use table::{MOST_OCTETS, Table};
