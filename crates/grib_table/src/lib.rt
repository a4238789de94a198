//! The tables that stand on a shelf under their names: a parameter table, a table of surfaces and a table of
//! names.
#![tactic(auto)]

mod reading;
mod stop;
mod together;

pub use stop::TablesStop;
pub use together::{Tables, read_tables};
