//! Expected numbers are from Python, which cuts the digits of one whole number; fields and refusals are
//! those of worked messages.

use crate::given::section;
use grib_base::ReadFault;
use grib_bitmap::{Mask, ones, read_mask};
use grib_packing::{Column, Packing, Point, read_simple};
use grib_simple::{SimplePacking, unpack_numbers, unpack_points};
use std::alloc::{AllocError, Global};
use std::process::Abort;
use std::test::Fail;

mod packing;

/// Octets made with Python's random numbers.
const OCTETS: &[u8; 60] = b"\xdc\x61\x8e\x6a\xd2\xc2\x12\x1d\xb7\x25\x81\x90\xd4\x64\xd4\x1f\x87\
\x19\x90\xa9\x8e\xcc\x8e\x72\xe3\xa3\x04\xfc\x86\x94\x64\x1e\xcd\x63\x15\x47\x8c\x88\xc8\x53\xc5\
\x9f\x5e\xb0\xb8\x38\x12\x71\x74\x4a\x77\xfe\x72\x0a\x3e\x60\x73\x1a\xa6\x6c";

/// The numbers of the first `length` octets, for which it is seen first that they are there.
fn unpacked(
    rt: &impl Abort,
    alloc: Global,
    length: usize,
    bits: u32,
    count: u32,
) -> Result<Vec<u64>, AllocError> {
    assert!(rt; length <= 60 && bits <= 48);
    let octets = &OCTETS[..length];
    assert!(rt; u64::from(bits) * u64::from(count) <= 8 * octets.len() as u64);
    unpack_numbers(alloc, octets, bits, count)
}

/// A Section 7.
const DATA: [u8; 11] = [0, 0, 0, 11, 7, 0x00, 0x1a, 0xbc, 0xff, 0xf0, 0x00];

#[test]
fn points_of_half_octets(rt: HostRuntime) -> Result<(), Fail> {
    let points = unpack_points(rt.alloc(), &DATA[5..8], 4, 5)?;
    let expected = [0, 0, 1, 10, 11].map(Point::Scaled);
    assert_eq!(rt; points.as_slice(), expected.as_slice());
    let numbers = unpack_numbers(rt.alloc(), &DATA[5..8], 4, 5)?;
    assert_eq!(rt; numbers.as_slice(), [0, 0, 1, 10, 11].as_slice());
    Ok(())
}

/// A field of three values.
const THREE: [u8; 21] = [
    0, 0, 0, 21, 5, 0, 0, 0, 3, 0, 0, 0xc2, 0xed, 0x40, 0x00, 0x80, 0x03, 0x00, 0x01, 8, 0,
];

/// The column of a field in simple packing, for which it is seen first that Section 5 is accepted. Section
/// 7 begins at octet 171.
fn unpacked_field(
    rt: &impl Abort,
    alloc: Global,
    representation: &[u8],
    mask: &Mask,
    data: &[u8],
) -> Result<Column, ReadFault> {
    let section5 = section(rt, 5, 144, representation);
    let section7 = section(rt, 7, 171, data);
    let Ok(simple) = read_simple(&section5, mask.len()) else {
        panic!(rt; "the representation is refused");
    };
    assert!(rt; simple.template == 0 && simple.values == ones(mask));
    assert!(rt; mask.len() >= 1 && mask.len() <= 33_554_432);
    SimplePacking.unpack(alloc, &section5, mask, &section7)
}

/// The column that was unpacked.
fn column(rt: &impl Abort, unpacked: Result<Column, ReadFault>) -> Column {
    match unpacked {
        Ok(column) => column,
        Err(_) => panic!(rt; "the field is refused"),
    }
}

/// The mask of a Section 6.
fn mask_of(
    rt: &impl Abort,
    alloc: Global,
    octets: &[u8],
    points: u32,
    values: u32,
    earlier: Option<&Mask>,
) -> Mask {
    match read_mask(alloc, &section(rt, 6, 165, octets), points, values, earlier) {
        Ok(mask) => mask,
        Err(_) => panic!(rt; "the bitmap is refused"),
    }
}

#[test]
fn fields_of_a_message_with_a_bitmap(rt: HostRuntime) {
    let mask = mask_of(&rt, rt.alloc(), &[0, 0, 0, 7, 6, 0, 0xb0], 4, 3, None);
    let first = unpacked_field(&rt, rt.alloc(), &THREE, &mask, &[0, 0, 0, 8, 7, 0, 1, 2]);
    let first = column(&rt, first);
    assert_eq!(rt; first.points.as_slice(), points![0 _ 1 2].as_slice());
    let scales = (first.reference, first.e, first.d);
    assert_eq!(rt; scales, (0xc2ed4000, 0x8003, 1));

    let again = mask_of(&rt, rt.alloc(), &[0, 0, 0, 6, 6, 254], 4, 3, Some(&mask));
    let second = unpacked_field(&rt, rt.alloc(), &THREE, &again, &[0, 0, 0, 8, 7, 3, 4, 5]);
    let second = column(&rt, second);
    assert_eq!(rt; second.points.as_slice(), points![3 _ 4 5].as_slice());
}
