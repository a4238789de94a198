//! Simple packing of values as they come: template 5.0, and no column is made.
#![tactic(auto)]

mod bitmap;
mod bitmap_writer;
mod in_place;
mod marked;
mod marking;
mod numbers;
mod sections;
mod seen;
mod writing;

pub use bitmap::mask_section;
pub use bitmap_writer::BitmapWriter;
pub use in_place::pack_numbers;
pub use marked::MarkedWriter;
pub use numbers::NumberWriter;
pub use sections::pack_written;
pub use seen::Seen;
