//! Expected octets are those of worked messages.

ghost use Rattle.std.specs.Prelude.{◌≡◌, ◌⊎◌, ◌≤◌, false, length, IfOk};
ghost use Rattle.std.specs.List.{list_any};
ghost use Rattle.grib_packing.specs.Entries.{is_out_of_range};

use grib_base::List;
use grib_complex::{ComplexPacking, SpatialPacking};
use grib_packing::{Column, PackFault, Packed, Packing, Point};
use std::alloc::{AllocError, Global};
use std::test::Fail;

/// The column of these points, with R = -118.625, E = -3 and D = 1.
fn column(alloc: Global, points: &[Point]) -> Result<Column, AllocError>
    ensures { IfOk result (λ column. (column.points ≡ points.now) × (column.reference ≡ 3270328320)) }
{
    Ok(Column {
        reference: 0xc2ed4000,
        e: 0x8003,
        d: 1,
        points: List::of(points.to_vec(alloc)?),
    })
}

/// The points as groups of their scaled integers.
fn complex(alloc: Global, points: &[Point]) -> Result<Packed, PackFault>
    requires some { 1 ≤ length points.now }
    requires few { length points.now ≤ 33554432 }
    requires within { list_any is_out_of_range points.now ≡ false }
{
    let column = column(alloc, points)?;
    ComplexPacking.pack(alloc, &column, 0)
}

/// The points as groups of their differences.
fn spatial(alloc: Global, points: &[Point], order: u8) -> Result<Packed, PackFault>
    requires order { (order ≡ 1) ⊎ (order ≡ 2) }
    requires some { 1 ≤ length points.now }
    requires few { length points.now ≤ 33554432 }
    requires within { list_any is_out_of_range points.now ≡ false }
{
    let column = column(alloc, points)?;
    SpatialPacking::new(order).pack(alloc, &column, 0)
}

/// Octets 22 to 47 of a Section 5, with this management, number of groups, bits of widths and last length.
fn layout(management: u8, groups: u8, width_bits: u8, last: u8) -> [u8; 26] {
    [
        1, management, 255, 255, 255, 255, 255, 255, 255, 255, 0, 0, 0, groups, 0, width_bits, 0,
        0, 0, 1, 1, 0, 0, 0, last, 6,
    ]
}

/// Octets 1 to 21 of a Section 5, with this length, number of values, template and bits of references.
fn front(length: u8, values: u8, template: u8, bits: u8) -> [u8; 21] {
    [
        0, 0, 0, length, 5, 0, 0, 0, values, 0, template, 0xc2, 0xed, 0x40, 0, 0x80, 3, 0, 1, bits,
        0,
    ]
}

/// Whether these are Section 6 without a bitmap and this Section 7.
fn has(packed: &Packed, data: &[u8]) -> bool {
    packed.section6.as_slice() == [0, 0, 0, 6, 6, 255].as_slice()
        && packed.section7.as_slice() == data
}

/// Whether this is a Section 5 of template 5.2.
fn has_complex(packed: &Packed, front: [u8; 21], layout: [u8; 26]) -> bool {
    let octets = packed.section5.as_slice();
    octets.len() == 47 && &octets[..21] == front.as_slice() && &octets[21..] == layout.as_slice()
}

/// Whether this is a Section 5 of template 5.3.
fn has_spatial(packed: &Packed, front: [u8; 21], layout: [u8; 26], ends: [u8; 2]) -> bool {
    let octets = packed.section5.as_slice();
    octets.len() == 49
        && &octets[..21] == front.as_slice()
        && &octets[21..47] == layout.as_slice()
        && &octets[47..] == ends.as_slice()
}

#[test]
fn first_differences_in_two_groups(rt: HostRuntime) -> Result<(), Fail> {
    let points = [
        Point::Scaled(5),
        Point::Scaled(-5),
        Point::Scaled(1),
        Point::Scaled(2),
    ];
    let made = spatial(rt.alloc(), &points, 1)?;
    assert!(rt; has_spatial(&made, front(49, 4, 3, 5), layout(0, 2, 3, 2), [1, 1]));
    let data = b"\0\0\0\x0d\x07\x05\x8a\x02\xc0\x0c\x04\x10\xa0";
    assert!(rt; has(&made, data));
    Ok(())
}

#[test]
fn a_missing_point_among_numbers(rt: HostRuntime) -> Result<(), Fail> {
    let made = complex(rt.alloc(), &points![5 _ 6])?;
    assert!(rt; has_complex(&made, front(47, 3, 2, 3), layout(1, 1, 2, 3)));
    assert!(rt; has(&made, &[0, 0, 0, 9, 7, 0xa0, 0x80, 0x08, 0x34]));
    Ok(())
}
