//! What holds of a field that is demoted: it is accepted as a message of edition 1 and means what it meant, and of
//! that nothing is lost when it is migrated back.
#![tactic(auto)]

pub mod laws;
