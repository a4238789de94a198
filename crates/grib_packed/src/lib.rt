//! Columns in any packing, and what packing writes as a function of the column: definitions, and laws that tie them to
//! the relation that packing is proved to have.
#![tactic(auto)]

mod column;
pub mod laws;
pub mod worked;

pub use column::pack_column;
