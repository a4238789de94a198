//! The definitions tried on worked messages: each function is a law, whose clauses are computed from the
//! definitions alone.
#![tactic(auto)]

pub mod acceptance;
pub mod answers;
pub mod changes;
pub mod coded;
pub mod columns;
pub mod comparing;
pub mod edition1;
pub mod grammar;
pub mod lines;
pub mod packings;
pub mod references;
pub mod rules;
pub mod streams;
