//! What holds of a whole run, whatever it passes: what is written preserves the values and the
//! columns of the fields, and what is answered is in the grammar.
#![tactic(auto)]

pub mod laws;
