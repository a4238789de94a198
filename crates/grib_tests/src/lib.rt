//! Tests of the crates below the packings, of decimals, the parameter table and the outside, over their public
//! calls alone, a module for each crate. What a contract says for every input is not tried again: expected
//! values are from outside, worked by hand or made by another program.
#![tactic(auto)]

#[cfg(test)]
mod base;
#[cfg(test)]
mod bitmap;
#[cfg(test)]
mod decimal;
#[cfg(test)]
mod given;
#[cfg(test)]
mod grids;
#[cfg(test)]
mod outside;
#[cfg(test)]
mod params;
#[cfg(test)]
mod products;
#[cfg(test)]
mod writers;
