//! Sections 5 and 7 as the packings share them: what a field holds, how its groups are laid out, the
//! definitions of what packed data mean, what each packing offers, what all templates share of Section 5, and what is read of one
//! whose packing is opaque.
#![tactic(auto)]

mod binary;
mod column;
mod group;
mod keeping;
pub mod laws;
mod layout;
mod opaque;
mod packing;
mod representation;
mod target;
mod writing;
mod written;

pub use binary::bit_length;
pub use column::{Column, Point};
pub use group::Group;
pub use keeping::{Keeper, Nothing, Points, push_in_room};
pub use layout::Layout;
pub use opaque::{Opaque, check_stated, is_opaque, is_read, read_opaque};
pub use packing::Packing;
pub use representation::{Simple, numbers_of, read_simple};
pub use target::RepackTarget;
pub use writing::{are_octets, no_bitmap, octets_written, room_for, write_head, write_numbers};
pub use written::{PackFault, Packed};
