//! Weather fields in GRIB, for programs that read, copy and repack them: the messages of an input, the fields of a
//! message, and what a field holds, exactly. It is a face over the crates below it, which say each part in full; what
//! their contracts promise is promised here. `Reader` goes over an input that comes in pieces, `messages` over octets
//! in memory, and `read` takes one message.
//!
//! ```
//! use grib::{Reader, Value};
//!
//! fn main(rt: HostRuntime) -> anyhow::Result<()> {
//!     let alloc = rt.alloc();
//!     let mut reader = Reader::from_reader(alloc, rt.stdin());
//!     while reader.advance()? {
//!         for field in reader.message()?.fields() {
//!             for value in field.points(alloc)? {
//!                 match value {
//!                     Value::Number(exact) => println!(rt; "{}", exact.decimal(alloc, 2)?)?,
//!                     Value::Missing => println!(rt; "missing")?,
//!                 }
//!             }
//!         }
//!     }
//!     Ok(())
//! }
//! ```
//!
//! It is the crate `example_values`, which the gate builds and runs, as `example_find`, `example_repack` and
//! `example_levels`. A refused message is an error with its place, octet and reason, for `?` or to be printed.
#![tactic(auto)]

mod changing;
mod fault;
mod field;
mod fields;
mod keys;
mod message;
mod points;
mod readable;
mod reader;
mod sequence;
mod sign_bit;
mod value;

pub use changing::{MigrateError, RepackError};
pub use fault::ReadError;
pub use field::Field;
pub use fields::Fields;
pub use grib_base::{Fault, List, Reason};
pub use grib_decimal::DecimalFault;
pub use grib_io::{Failed, ReadSource, Source};
pub use grib_keys::{Key, Value as KeyValue};
pub use grib_migrate::{Loss, MigrateFault, migrate};
pub use grib_packing::{Column, Point};
pub use grib_params::{Table, TableFault};
pub use grib_repack::{RepackFault, RepackTarget, repack};
pub use grib1_sections::{Key1, Message1};
pub use grib2_grids::{Gaussian, Grid, GridSection, Lambert, LatLon, Mercator, Polar, Rotation};
pub use grib2_message::ReadableMessage;
pub use grib2_products::{Ensemble, Instant, Interval, Product, ProductSection, Spec};
pub use keys::{Keys, Keys1};
pub use message::{Message, read};
pub use points::Points;
pub use reader::Reader;
pub use sequence::{MessageIter, messages};
pub use sign_bit::SignBit;
pub use value::{Exact, Value};
