//! What the commands print of a message: `check`, `list`, `keys`, `stats` and `dump`.
#![tactic(auto)]

mod checking;
mod dumping;
mod fields;
mod keeping;
mod keying;
mod lining;
mod listing;
mod message;
mod message1;
mod placing;
mod points;
mod printing;
mod references;
mod scaling;
mod summing;
mod value_printing;
mod valuing;

pub use checking::Checking;
pub use dumping::Dumping;
pub use fields::{FieldTexts, write_fields};
pub use grib_text::Lining;
pub use keying::Keying;
pub use listing::Listing;
pub use message::field_sums;
pub use message1::message_sums1;
pub use points::{ROOM, append_text, make_room};
pub use printing::{Printer, Printing};
pub use references::ieee_reference;
pub use scaling::{Scaling, field_scaling, message_scaling1};
pub use summing::Summing;
pub use value_printing::{PrintingValues, ValuePrinter};
pub use valuing::{Valuing, decimal_cause};
