//! Numbers of worked messages and their differences, and numbers that leave the range.

ghost use Rattle.std.specs.Prelude.{◌≡◌};

use grib_base::List;
use grib_spatial::{Differences, difference, undo};
use std::test::Fail;

#[test]
fn first_differences(rt: HostRuntime) -> Result<(), Fail> {
    let told = difference(rt.alloc(), &[5, -5, 1, 2], 1)?;
    assert_eq!(rt; (told.first, told.second, told.minimum), (5, 0, -10));
    assert_eq!(rt; told.codes.as_slice(), [0, 0, 16, 11].as_slice());
    let none = difference(rt.alloc(), &[], 2)?;
    assert_eq!(rt; (none.first, none.second, none.minimum), (0, 0, 0));
    assert!(rt; none.codes.as_slice().is_empty());
    Ok(())
}

/// Differences with these codes.
fn told(codes: Vec<u64>, first: i64, second: i64, minimum: i64) -> Differences
    ensures { result ≡ record { first = first; second = second; minimum = minimum; codes = codes.items } }
{
    Differences {
        first,
        second,
        minimum,
        codes: List::of(codes),
    }
}

#[test]
fn numbers_are_undone(rt: HostRuntime) -> Result<(), Fail> {
    let first = told(vec![in rt.alloc(); 9, 0, 16, 11]?, 5, 0, -10);
    let numbers = undo(rt.alloc(), &first, 1)?;
    assert_eq!(rt; numbers.as_slice(), [5, -5, 1, 2].as_slice());
    let second = told(vec![in rt.alloc(); 3, 7, 0, 0]?, 10, 12, 1);
    let numbers = undo(rt.alloc(), &second, 2)?;
    assert_eq!(rt; numbers.as_slice(), [10, 12, 15, 19].as_slice());
    Ok(())
}
