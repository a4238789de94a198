//! Tests of the crates that read, change and print whole messages, over their public calls alone, a module for
//! each crate. Expected values are from outside, worked by hand or made by another program.
#![tactic(auto)]

#[cfg(test)]
mod edition1;
#[cfg(test)]
mod made;
#[cfg(test)]
mod message;
#[cfg(test)]
mod select;
#[cfg(test)]
mod text;
#[cfg(test)]
mod worked;
