//! Expected points are those of worked messages.

ghost use Rattle.std.specs.Prelude.{◌≡◌, ◌≤◌, None, length as length_of};
ghost use Rattle.grib_bitmap.specs.Mask.{present_count};
ghost use Rattle.grib_packing.specs.Entries.{packing_fault};
ghost use Rattle.grib_packing.specs.Packing.{packing_template, value_count};

use crate::given::section;
use grib_base::{ReadFault, Section};
use grib_bitmap::{Mask, ones};
use grib_complex::{ComplexPacking, SpatialPacking, read_complex};
use grib_packing::{Column, Packing, Point, read_simple};
use std::alloc::Global;
use std::process::Abort;
use std::test::Fail;

mod packing;

/// The column of a field whose Section 7 begins at octet 200, of which it is seen first that Section 5 is
/// accepted.
fn unpacked(
    rt: &impl Abort,
    alloc: Global,
    representation: &[u8],
    mask: &Mask,
    data: &[u8],
) -> Result<Column, ReadFault> {
    let section5 = section(rt, 5, 144, representation);
    let section7 = section(rt, 7, 200, data);
    let Ok(simple) = read_simple(&section5, mask.len()) else {
        panic!(rt; "the representation is refused");
    };
    assert!(rt; simple.values == ones(mask));
    assert!(rt; mask.len() >= 1 && mask.len() <= 33_554_432);
    assert!(rt; simple.template == 2 || simple.template == 3);
    let Ok(_complex) = read_complex(&section5, mask.len()) else {
        panic!(rt; "the groups are refused");
    };
    if simple.template == 2 {
        whole_by(&ComplexPacking, alloc, &section5, mask, &section7)
    } else {
        whole_by(&SpatialPacking::new(1), alloc, &section5, mask, &section7)
    }
}

/// The column of a field by a packing, which is that of its Section 5.
fn whole_by<P: Packing>(
    packing: &P,
    alloc: Global,
    section5: &Section<'_>,
    mask: &Mask,
    section7: &Section<'_>,
) -> Result<Column, ReadFault>
    requires some { 1 ≤ length_of mask.now }
    requires few { length_of mask.now ≤ 33554432 }
    requires accepted { packing_fault section5.now.octets.now (length_of mask.now) ≡ None }
    requires template { packing_template section5.now.octets.now ≡ P.template packing.now }
    requires values { present_count mask.now ≡ value_count section5.now.octets.now }
{
    packing.unpack(alloc, section5, mask, section7)
}

/// Whether the field has these points.
fn has_points(answer: &Result<Column, ReadFault>, points: &[Point]) -> bool {
    match answer {
        Ok(column) => column.points.as_slice() == points,
        Err(_fault) => false,
    }
}

/// Section 5 of C1: three values in template 5.2, management 1.
const C1: [u8; 47] = [
    0, 0, 0, 47, 5, 0, 0, 0, 3, 0, 2, 0xc2, 0xed, 0x40, 0x00, 0x80, 0x03, 0x00, 0x01, 3, 0, 1, 1,
    255, 255, 255, 255, 255, 255, 255, 255, 0, 0, 0, 1, 0, 2, 0, 0, 0, 1, 1, 0, 0, 0, 3, 6,
];

/// Section 5 of C2: four values in template 5.2, management 2.
const C2: [u8; 47] = [
    0, 0, 0, 47, 5, 0, 0, 0, 4, 0, 2, 0xc2, 0xed, 0x40, 0x00, 0x80, 0x03, 0x00, 0x01, 2, 0, 1, 2,
    255, 255, 255, 255, 255, 255, 255, 255, 0, 0, 0, 1, 0, 1, 0, 0, 0, 1, 1, 0, 0, 0, 4, 6,
];

/// Section 5 of M3: four values in template 5.3, order 1, descriptors of one octet.
const M3: [u8; 49] = [
    0, 0, 0, 49, 5, 0, 0, 0, 4, 0, 3, 0xc2, 0xed, 0x40, 0x00, 0x80, 0x03, 0x00, 0x01, 5, 0, 1, 0,
    255, 255, 255, 255, 255, 255, 255, 255, 0, 0, 0, 2, 0, 3, 0, 0, 0, 1, 1, 0, 0, 0, 2, 6, 1, 1,
];

/// Section 7 of M3.
const M3_DATA: [u8; 13] = [
    0, 0, 0, 13, 7, 0x05, 0x8a, 0x02, 0xc0, 0x0c, 0x04, 0x10, 0xa0,
];

#[test]
fn worked_messages(rt: HostRuntime) -> Result<(), Fail> {
    let three = Mask::all(rt.alloc(), 3)?;
    let data = [0, 0, 0, 9, 7, 0xa0, 0x80, 0x08, 0x34];
    let answer = unpacked(&rt, rt.alloc(), &C1, &three, &data);
    assert!(rt; has_points(&answer, &points![5 _ 6]));

    let four = Mask::all(rt.alloc(), 4)?;
    let data = [0, 0, 0, 9, 7, 0x00, 0x80, 0x0c, 0xa0];
    let answer = unpacked(&rt, rt.alloc(), &C2, &four, &data);
    assert!(rt; has_points(&answer, &points![_ ~ _ ~]));

    let answer = unpacked(&rt, rt.alloc(), &M3, &four, &M3_DATA);
    let points = [5, -5, 1, 2].map(Point::Scaled);
    assert!(rt; has_points(&answer, &points));
    Ok(())
}
