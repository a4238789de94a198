//! What holds of a message that is migrated: it is accepted as a message of edition 2, and has the values of the
//! message of edition 1.
#![tactic(auto)]

pub mod laws;
