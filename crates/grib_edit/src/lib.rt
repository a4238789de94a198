//! What the commands make of a message: `filter`, `split`, `set`, `repack`, `rescan`, `crop`, `migrate` and
//! `demote`.
#![tactic(auto)]

mod changing;
mod choosing;
mod dated;
mod demoting;
mod filtering;
mod filtering1;
mod migrating;
mod repacking;
mod rescanning;
mod setting;
mod setting1;
mod shrinking;
mod splitting;

pub use changing::{Changer, Changing, OfValues, ValueChanger};
pub use choosing::Chooser;
pub use demoting::Demoting;
pub use filtering::{Filtering, FilteringNamed};
pub use filtering1::Filtering1;
pub use migrating::Migrating;
pub use repacking::Repacking;
pub use rescanning::Rescanning;
pub use setting::Setting;
pub use setting1::Setting1;
pub use shrinking::Shrinking;
pub use splitting::Splitting;
