//! Expected octets are those of worked messages, and from Python.

ghost use Rattle.std.specs.Prelude.{◌≡◌, ◌≤◌, false, length};
ghost use Rattle.std.specs.List.{list_any};
ghost use Rattle.grib_packing.specs.Entries.{is_out_of_range};

use grib_base::List;
use grib_packing::{Column, PackFault, Packed, Packing, Point};
use grib_simple::SimplePacking;
use std::alloc::Global;
use std::test::Fail;

/// The column of these points, with R = -118.625, E = -3 and D = 1, packed simply. Their original values
/// were of type 1.
fn packed(alloc: Global, points: &[Point]) -> Result<Packed, PackFault>
    requires some { 1 ≤ length points.now }
    requires few { length points.now ≤ 33554432 }
    requires within { list_any is_out_of_range points.now ≡ false }
{
    let column = Column {
        reference: 0xc2ed4000,
        e: 0x8003,
        d: 1,
        points: List::of(points.to_vec(alloc)?),
    };
    SimplePacking.pack(alloc, &column, 1)
}

/// Whether these are the three sections, the first of this many values of this many bits.
fn has(packed: &Packed, values: u8, bits: u8, bitmap: &[u8], data: &[u8]) -> bool {
    let representation = [
        0, 0, 0, 21, 5, 0, 0, 0, values, 0, 0, 0xc2, 0xed, 0x40, 0x00, 0x80, 0x03, 0x00, 0x01,
        bits, 1,
    ];
    packed.section5.as_slice() == representation.as_slice()
        && packed.section6.as_slice() == bitmap
        && packed.section7.as_slice() == data
}

#[test]
fn missing_points_stand_in_a_bitmap(rt: HostRuntime) -> Result<(), Fail> {
    let made = packed(rt.alloc(), &points![5 _ 6])?;
    let bitmap = [0, 0, 0, 7, 6, 0, 0xa0];
    assert!(rt; has(&made, 2, 3, &bitmap, &[0, 0, 0, 6, 7, 0xb8]));
    Ok(())
}
