//! Tests of the crate `grib`, over its public calls alone. Expected values are worked by hand from the tables of the
//! manual, and those of binary64 are the literals of Rust for these decimals.
#![tactic(auto)]

#[cfg(test)]
mod changes;
#[cfg(test)]
mod fields;
#[cfg(test)]
mod messages;
#[cfg(test)]
mod reading;
