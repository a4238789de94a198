//! Messages of edition 1: acceptance and sections.
#![tactic(auto)]

mod checking;
mod column;
mod contents;
mod frame;
mod key;
pub mod laws;
mod lists;
mod message;
mod reading;

pub use grib_base::ReadFault as ReadFault1;
pub use grib_keys::Key1;
pub use message::Message1;
pub use reading::read_message1;
