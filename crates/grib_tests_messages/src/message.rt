//! Whole messages. The octets and what they hold are worked by hand from the tables of the manual.

use crate::worked::{
    FIRST_VALUES, FOUR_NUMBERS, FOUR_VALUES, GRID, IDENTIFICATION, NO_BITMAP, OWN_BITMAP, PRODUCT,
    SAME_BITMAP, SECOND_VALUES, THREE_NUMBERS, message_of, read, readable,
};
use grib_base::{Fault, ReadFault, Reason};
use grib_packing::Point;
use grib2_message::Message;
use std::alloc::{AllocError, Global};
use std::test::Fail;

/// A Gaussian grid of two rows, the first of one point, up to the number of points of the second.
const REDUCED_GRID: &[u8] = b"\0\0\0\x4c\x03\0\0\0\0\x04\x02\x01\0\x28\x06\
\xff\xff\xff\xff\xff\xff\xff\xff\xff\xff\xff\xff\xff\xff\xff\xff\xff\xff\xff\0\0\0\x02\
\0\0\0\0\xff\xff\xff\xff\x02\xfa\xf0\x80\0\x98\x96\x80\x30\x02\xeb\xae\x40\0\xa7\xd8\xc0\
\0\x0f\x42\x40\0\0\0\x02\0\0\x01";

/// Why the message is refused, if it is.
fn refusal(alloc: Global, octets: &[u8]) -> Option<Fault> {
    match read(alloc, octets) {
        Err(ReadFault::Refused(fault)) => Some(fault),
        _ => None,
    }
}

/// The octet at which the section in force for a field begins, or 0.
fn start(message: &Message<'_>, field: u32, section: u8) -> u64 {
    if field < 1 || field > message.fields() || section < 1 || section > 7 {
        return 0;
    }
    match message.part(field, section) {
        Some(found) => found.start,
        None => 0,
    }
}

/// Whether a field that is there holds these points.
fn holds(
    alloc: Global,
    message: &Message<'_>,
    field: u32,
    points: &[Point],
) -> Result<bool, AllocError> {
    if field < 1 || field > message.fields() {
        return Ok(false);
    }
    let column = readable(message)?.column(alloc, field)?;
    Ok(column.points.as_slice() == points)
}

#[test]
fn fields_share_a_grid_and_a_bitmap(rt: HostRuntime) -> Result<(), Fail> {
    let local = b"\0\0\0\x06\x02\x2a";
    let sections = [
        IDENTIFICATION,
        local.as_slice(),
        GRID,
        PRODUCT,
        THREE_NUMBERS,
        OWN_BITMAP,
        FIRST_VALUES,
        PRODUCT,
        THREE_NUMBERS,
        SAME_BITMAP,
        SECOND_VALUES,
    ];
    let octets = message_of(rt.alloc(), 258, &sections)?;
    let Ok(message) = read(rt.alloc(), octets.as_slice()) else {
        return Err(Fail::from("refused"));
    };
    assert_eq!(rt; message.fields(), 2);
    assert_eq!(rt; start(&message, 1, 2), 38);
    assert_eq!(rt; start(&message, 2, 3), 44);
    assert_eq!(rt; start(&message, 1, 4), 116);
    assert_eq!(rt; start(&message, 2, 4), 186);
    assert_eq!(rt; start(&message, 2, 6), 241);
    assert!(rt; message.bitmap(1).octets == OWN_BITMAP);
    assert!(rt; message.bitmap(2).octets == OWN_BITMAP);
    let points = [
        Point::Scaled(0),
        Point::Missing,
        Point::Scaled(1),
        Point::Scaled(2),
    ];
    assert!(rt; holds(rt.alloc(), &message, 1, &points)?);
    let points = [
        Point::Scaled(3),
        Point::Missing,
        Point::Scaled(4),
        Point::Scaled(5),
    ];
    assert!(rt; holds(rt.alloc(), &message, 2, &points)?);
    Ok(())
}

#[test]
fn rows_of_a_grid_add_up(rt: HostRuntime) -> Result<(), Fail> {
    let mut sections = [
        IDENTIFICATION,
        REDUCED_GRID,
        b"\0\x03".as_slice(),
        PRODUCT,
        FOUR_NUMBERS,
        NO_BITMAP,
        FOUR_VALUES,
    ];
    let octets = message_of(rt.alloc(), 187, &sections)?;
    let Ok(message) = read(rt.alloc(), octets.as_slice()) else {
        return Err(Fail::from("refused"));
    };
    assert_eq!(rt; message.fields(), 1);
    let Some(grid) = message.grid(rt.alloc(), 1)? else {
        return Err(Fail::from("opaque grid"));
    };
    assert_eq!(rt; grid.points, 4);
    assert_eq!(rt; grid.rows.as_slice(), [1, 3].as_slice());
    let Some(product) = message.product(rt.alloc(), 1)? else {
        return Err(Fail::from("opaque product"));
    };
    assert_eq!(rt; product.coordinates.as_slice().len(), 0);
    sections[2] = b"\0\x02".as_slice();
    let octets = message_of(rt.alloc(), 187, &sections)?;
    let expected = Fault {
        octet: 44,
        reason: Reason::PointCount,
        detail: 3,
    };
    assert_eq!(rt; refusal(rt.alloc(), octets.as_slice()), Some(expected));
    Ok(())
}
