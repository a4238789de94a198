//! Tests of runs whose devices fail, that find no memory, or of which it is seen how much of the input they take. What other
//! runs write is in dist/cases.
#![tactic(auto)]

#[cfg(test)]
mod arrays;
#[cfg(test)]
mod arriving;
#[cfg(test)]
mod checking;
#[cfg(test)]
mod comparing;
#[cfg(test)]
mod engine;
#[cfg(test)]
mod in_memory;
#[cfg(test)]
mod memory;
#[cfg(test)]
mod migrating;
#[cfg(test)]
mod pages;
#[cfg(test)]
mod repacking;
#[cfg(test)]
mod splitting;
#[cfg(test)]
mod tables;
