//! Tests of the packings over their public calls alone, a module for each crate. What a contract says for every
//! input is not tried again: expected values are from outside, worked by hand or made by another program.
#![tactic(auto)]

/// Points: `_` is a missing one, `~` a secondary missing one.
macro_rules! points {
    (@ _) => {
        Point::Missing
    };
    (@ ~) => {
        Point::Missing2
    };
    (@ $number:literal) => {
        Point::Scaled($number)
    };
    ($($point:tt)*) => {
        [$(points!(@ $point)),*]
    };
}

#[cfg(test)]
mod complex;
#[cfg(test)]
mod given;
#[cfg(test)]
mod simple;
#[cfg(test)]
mod spatial;
#[cfg(test)]
mod split;
