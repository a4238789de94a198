//! What small messages hold. The octets are written by hand from the layout of the manual, and so are the
//! expected numbers.

use super::{MASKED, PLAIN, REDUCED, read};
use grib_packing::{Column, Point};
use grib1_sections::Message1;
use std::alloc::Global;
use std::test::Fail;

/// The message of these octets.
fn message(alloc: Global, octets: &[u8]) -> Result<Message1<'_>, Fail> {
    match read(alloc, octets) {
        Ok(message) => Ok(message),
        Err(_) => Err(Fail::from("refused")),
    }
}

/// The column of the message of these octets.
fn column(alloc: Global, octets: &[u8]) -> Result<Column, Fail> {
    Ok(message(alloc, octets)?.column1(alloc)?)
}

#[test]
fn points_without_a_bit_are_missing(rt: HostRuntime) -> Result<(), Fail> {
    let column = column(rt.alloc(), MASKED)?;
    assert_eq!(rt; column.reference, 0x41100000);
    assert_eq!(rt; column.e, 1);
    assert_eq!(rt; column.d, 0x8002);
    let expected = [
        Point::Scaled(5),
        Point::Missing,
        Point::Scaled(6),
        Point::Scaled(7),
    ];
    assert_eq!(rt; column.points.as_slice(), expected.as_slice());
    Ok(())
}

#[test]
fn lists_stand_after_the_grid(rt: HostRuntime) -> Result<(), Fail> {
    let reduced = message(rt.alloc(), REDUCED)?;
    assert_eq!(rt; reduced.rows1(rt.alloc())?.as_slice(), [1, 3].as_slice());
    assert_eq!(rt;
        reduced.coordinates1(rt.alloc())?.as_slice(),
        [0x41100000].as_slice()
    );
    let plain = message(rt.alloc(), PLAIN)?;
    assert_eq!(rt; plain.rows1(rt.alloc())?.len(), 0);
    assert_eq!(rt; plain.coordinates1(rt.alloc())?.len(), 0);
    Ok(())
}
