//! The table that gives a parameter of edition 2, by its discipline, category and number, a short name. It is handed in as
//! a text of records.
#![tactic(auto)]

pub mod laws;
mod row;
mod table;

pub use row::is_name;
pub use table::NameTable;
