//! A worked Section 3.

use crate::given::section;
use grib_base::ReadFault;
use grib2_grids::{Grid, GridSection, read_grid};
use std::alloc::Global;
use std::process::Abort;
use std::test::Fail;

/// Reads a section that begins at octet 38 of its message, and sees first that it is one.
fn read(rt: &impl Abort, alloc: Global, octets: &[u8]) -> Result<GridSection, ReadFault> {
    let section = section(rt, 3, 38, octets);
    read_grid(alloc, &section)
}

/// Section 3 of a message of two rows from 50 N 10 E to 49 N 11 E, in steps of one degree.
const WORKED: [u8; 72] = [
    0x00, 0x00, 0x00, 0x48, 0x03, 0x00, 0x00, 0x00, 0x00, 0x04, 0x00, 0x00, 0x00, 0x00, 0x06, 0xff,
    0xff, 0xff, 0xff, 0xff, 0xff, 0xff, 0xff, 0xff, 0xff, 0xff, 0xff, 0xff, 0xff, 0xff, 0x00, 0x00,
    0x00, 0x02, 0x00, 0x00, 0x00, 0x02, 0x00, 0x00, 0x00, 0x00, 0xff, 0xff, 0xff, 0xff, 0x02, 0xfa,
    0xf0, 0x80, 0x00, 0x98, 0x96, 0x80, 0x30, 0x02, 0xeb, 0xae, 0x40, 0x00, 0xa7, 0xd8, 0xc0, 0x00,
    0x0f, 0x42, 0x40, 0x00, 0x0f, 0x42, 0x40, 0x00,
];

#[test]
fn a_worked_section_is_read(rt: HostRuntime) -> Result<(), Fail> {
    let value = read(&rt, rt.alloc(), &WORKED)?;
    let Grid::LatLon(grid) = value.grid else {
        return Err(Fail::from("no grid of latitude and longitude"));
    };
    assert_eq!(rt; value.points, 4);
    assert_eq!(rt; (grid.shape, grid.ni, grid.nj, grid.flags), (6, 2, 2, 0x30));
    assert_eq!(rt; (grid.la1, grid.lo1), (50_000_000, 10_000_000));
    assert_eq!(rt; (grid.la2, grid.lo2), (49_000_000, 11_000_000));
    assert_eq!(rt;
        (grid.di, grid.dj, grid.scanning),
        (1_000_000, 1_000_000, 0)
    );
    Ok(())
}
