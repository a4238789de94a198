//! Groupings that are worked by hand: those of a worked message, and of codes that are all the same.

use grib_codes::Codes;
use grib_split::{Costs, chosen_lengths, fewest_lengths};
use std::test::Fail;

#[test]
fn of_two_that_cost_the_same_the_first_is_chosen(rt: HostRuntime) -> Result<(), Fail> {
    // One group of four costs 5 + 3 + 6 + 4 * 5 bits, two of two 2 * (5 + 3 + 6) + 2 * 3.
    let words = [0, 0, 16, 11];
    let costs = Costs {
        reserved: 0,
        reference_bits: 5,
        width_bits: 3,
    };
    let lengths = chosen_lengths(rt.alloc(), &Codes::of(&words, 0), &costs)?;
    assert_eq!(rt; lengths.as_slice(), [2, 2].as_slice());
    Ok(())
}

#[test]
fn the_fewest_groups_have_a_short_one_first(rt: HostRuntime) -> Result<(), Fail> {
    let lengths = fewest_lengths(rt.alloc(), 200)?;
    assert_eq!(rt; lengths.as_slice(), [8, 64, 64, 64].as_slice());
    let lengths = fewest_lengths(rt.alloc(), 128)?;
    assert_eq!(rt; lengths.as_slice(), [64, 64].as_slice());
    Ok(())
}
