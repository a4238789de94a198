//! The lists of Section 2: vertical coordinates, and the numbers of points of the rows.

ghost use Rattle.std.specs.Prelude.{◌≡◌, ◌≤◌, length, IfOk};
ghost use Rattle.grib1_sections.specs.Grid.{row_list};
ghost use Rattle.grib1_sections.specs.Coordinates.{coordinate_count as count_of, coordinate_list};
ghost use Rattle.grib1_sections.specs.Held.{HoldsLists};

use grib_bits::{read_list, u8_at, u16_at};
use std::alloc::{AllocError, Global};

/// Octet 5 where no list stands.
const NO_LIST: u8 = 255;

/// Ni where the rows differ in length.
const ROWS_DIFFER: u16 = 65535;

/// The words of the vertical coordinates of this Section 2.
pub(crate) fn read_coordinates(alloc: Global, section2: &[u8]) -> Result<Vec<u32>, AllocError>
    requires { HoldsLists section2.now }
    ensures words { IfOk result (λ words. words.items ≡ coordinate_list section2.now) }
    ensures few { IfOk result (λ words. length words.items ≤ 255) }
{
    let count = usize::from(coordinate_count(section2));
    if count == 0 {
        return Ok(Vec::new(alloc));
    }
    read_list(alloc, section2, usize::from(u8_at(section2, 5)), 4, count)
}

/// The number of points of each row of this Section 2, for a grid whose rows differ in length; else
/// empty.
pub(crate) fn read_rows(alloc: Global, section2: &[u8]) -> Result<Vec<u32>, AllocError>
    requires { HoldsLists section2.now }
    ensures { IfOk result (λ rows. rows.items ≡ row_list section2.now) }
{
    if u16_at(section2, 7) != ROWS_DIFFER {
        return Ok(Vec::new(alloc));
    }
    let first = usize::from(u8_at(section2, 5)) + 4 * usize::from(u8_at(section2, 4));
    let count = usize::from(u16_at(section2, 9));
    read_list(alloc, section2, first, 2, count)
}

/// How many vertical coordinates stand in this Section 2.
fn coordinate_count(section2: &[u8]) -> u8
    requires { 10 ≤ length section2.now }
    ensures { result ≡ count_of section2.now }
{
    if u8_at(section2, 5) == NO_LIST {
        return 0;
    }
    u8_at(section2, 4)
}
