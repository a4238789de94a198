//! Messages of edition 2: acceptance, fields, columns, and putting together again.
#![tactic(auto)]

mod assembling;
mod checking;
mod columns;
mod fault;
mod in_force;
pub mod laws;
mod message;
mod new_grid;
mod places;
mod readable;
mod reading;
mod summary;

pub use fault::AssembleFault;
pub use grib_base::ReadFault;
pub use in_force::InForce;
pub use message::Message;
pub use new_grid::NewGrid;
pub use readable::{OpaqueField, ReadableMessage};
pub use reading::read_message;
pub use summary::{FieldSummary, field_summary};
