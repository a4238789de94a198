//! The points of a grid in another order, and those of a subarea.

ghost use Rattle.std.specs.Prelude.{◌≡◌, ◌+◌, ◌-◌, ◌*◌, ◌%◌, ◌^◌, ◌<◌, ◌≤◌, ◌++◌, ◌==◌, ◌&&◌, cond, true, false, ℕ, length, take, drop, reverse, IfOk};
ghost use Rattle.grib_rescan.specs.Scanning.{turned, is_odd, scanning_of};
ghost use Rattle.grib_rescan.specs.Points.{IsBox, rescanned_points, cropped_points};
ghost use Rattle.grib_rescan.specs.Put.{IsPut, Keeps};

use crate::scanning::{Scanning, turn};
use crate::source::{GridPoints, Listed};
use grib_packing::Point;
use std::alloc::{AllocError, Global};

/// How many columns are put in their places at a time.
const BLOCK_COLUMNS: usize = 32;

/// A subarea of a grid: its columns from `i0` to `i1`, counted from the west, and its rows from `j0` to `j1`,
/// counted from the north, both from 0. In a grid that goes round the earth, columns go on at the first one behind
/// the last: `i1` is then the number of the columns of the grid, or more.
#[derive(Clone, Copy, Debug, PartialEq, Eq)]
pub struct Area {
    pub i0: u32,
    pub i1: u32,
    pub j0: u32,
    pub j1: u32,
}

/// The points of a grid of `ni` columns and `nj` rows in the order of scanning octet 0: the rows from the
/// north, and the points of each from the west. Where the points of a row are consecutive, they are moved in
/// the memory that they have; else there are two lists of them for a while.
///
/// # Errors
///
/// There is no memory for them.
pub fn rescan_points(
    alloc: Global,
    mut points: Vec<Point>,
    scanning: Scanning,
    ni: u32,
    nj: u32,
) -> Result<Vec<Point>, AllocError>
    requires { length points.items ≡ ni * nj }
    ensures { IfOk result (λ rescanned. rescanned.items ≡ rescanned_points scanning ni nj points.items) }
{
    let (columns, rows) = (ni as usize, nj as usize);
    if scanning.by_columns {
        order_rows(&mut points, scanning.exchanged(), rows, columns);
        return transpose(alloc, &Listed { points: &points }, columns, rows);
    }
    order_rows(&mut points, scanning, columns, rows);
    Ok(points)
}

/// The points of a grid of `ni` columns and `nj` rows in the order of scanning octet 0, where the points of a
/// column are consecutive, and go the same way in all of them. Each is read once, and there is one list.
///
/// # Errors
///
/// There is no memory for them.
pub fn rescan_columns<P: GridPoints>(
    alloc: Global,
    points: &P,
    scanning: Scanning,
    ni: u32,
    nj: u32,
) -> Result<Vec<Point>, AllocError>
    requires stands { P.stands points.now }
    requires length { length (P.points points.now) ≡ ni * nj }
    requires by_columns { scanning.by_columns ≡ true }
    requires one_way { scanning.alternates ≡ false }
    ensures { IfOk result (λ rescanned. rescanned.items ≡ rescanned_points scanning ni nj (P.points points.now)) }
{
    let (columns, rows) = (ni as usize, nj as usize);
    let mut points = transpose(alloc, points, columns, rows)?;
    let by_rows = Scanning {
        by_columns: false,
        ..scanning
    };
    order_rows(&mut points, by_rows, columns, rows);
    Ok(points)
}

/// Puts the rows in their order from the north, and the points of each from the west, where the points of a
/// row are consecutive.
fn order_rows(points: &mut [Point], scanning: Scanning, columns: usize, rows: usize)
    requires rows_stand { scanning.by_columns ≡ false }
    requires length { length points.old ≡ columns * rows }
    ensures { points.new ≡ rescanned_points scanning columns rows points.old }
{
    if scanning.northward {
        points.reverse();
    }
    turn_rows(points, scanning, columns, rows);
}

/// Turns each row whose points do not go from the west. Where rows go northward, all points stand the last
/// first, so that the rows are in their order from the north.
fn turn_rows(points: &mut [Point], scanning: Scanning, columns: usize, rows: usize)
    requires rows_stand { scanning.by_columns ≡ false }
    requires length { length points.old ≡ columns * rows }
    ensures { points.new
        ≡ rescanned_points scanning columns rows (cond scanning.northward (reverse points.old) points.old) }
{
    for row in 0..rows {
        let place = turn(scanning.northward, rows, row);
        let turns = scanning.alternates && place % 2 == 1;
        let from_west = turns == scanning.westward;
        let start = row * columns;
        if from_west == scanning.northward {
            points[start..start + columns].reverse();
        }
    }
}

/// The points row by row, where they stand column by column, and each column goes from the north. Some columns
/// are put in their places at a time, so that what is written of a row is consecutive.
fn transpose<P: GridPoints>(
    alloc: Global,
    points: &P,
    columns: usize,
    rows: usize,
) -> Result<Vec<Point>, AllocError>
    requires stands { P.stands points.now }
    requires length { length (P.points points.now) ≡ columns * rows }
    requires few { columns * rows < 2 ^ 64 }
    ensures { IfOk result (λ transposed. transposed.items
        ≡ rescanned_points (scanning_of 0x20) columns rows (P.points points.now)) }
{
    let mut transposed = Vec::new(alloc);
    transposed.resize(columns * rows, Point::Missing)?;
    for number in 0..columns.div_ceil(BLOCK_COLUMNS) {
        let first = number * BLOCK_COLUMNS;
        let end = first + BLOCK_COLUMNS.min(columns - first);
        put_columns(points, columns, rows, first, end, &mut transposed);
    }
    Ok(transposed)
}

/// Puts the columns from `first` up to `end` in their places, row by row.
fn put_columns<P: GridPoints>(
    points: &P,
    columns: usize,
    rows: usize,
    first: usize,
    end: usize,
    out: &mut [Point],
)
    requires stands { P.stands points.now }
    requires length { length (P.points points.now) ≡ columns * rows }
    requires few { columns * rows < 2 ^ 64 }
    requires within { end ≤ columns }
    requires size { length out.old ≡ columns * rows }
    ensures size { length out.new ≡ columns * rows }
    ensures keeps { Keeps (rescanned_points (scanning_of 0x20) columns rows (P.points points.now)) out.old out.new }
    ensures made { (i j : ℕ) → first ≤ i → i < end → j < rows
        → IsPut (rescanned_points (scanning_of 0x20) columns rows (P.points points.now)) out.new (j * columns + i) }
{
    for row in 0..rows {
        put_part(points, columns, rows, row, first, end, out);
    }
}

/// Puts the points of these columns that lie in a row in their places.
#[inline]
fn put_part<P: GridPoints>(
    points: &P,
    columns: usize,
    rows: usize,
    row: usize,
    first: usize,
    end: usize,
    out: &mut [Point],
)
    requires stands { P.stands points.now }
    requires length { length (P.points points.now) ≡ columns * rows }
    requires few { columns * rows < 2 ^ 64 }
    requires within { end ≤ columns }
    requires row { row < rows }
    requires size { length out.old ≡ columns * rows }
    ensures size { length out.new ≡ columns * rows }
    ensures keeps { Keeps (rescanned_points (scanning_of 0x20) columns rows (P.points points.now)) out.old out.new }
    ensures made { (i : ℕ) → first ≤ i → i < end
        → IsPut (rescanned_points (scanning_of 0x20) columns rows (P.points points.now)) out.new (row * columns + i) }
{
    for column in first..end {
        out[row * columns + column] = points.point(column * rows + row);
    }
}

/// The points of a subarea of a grid of `ni` columns and `nj` rows, whose points are in the order of scanning
/// octet 0; in this order.
///
/// # Errors
///
/// There is no memory for them.
pub fn crop_points<P: GridPoints>(
    alloc: Global,
    points: &P,
    ni: u32,
    nj: u32,
    area: &Area,
) -> Result<Vec<Point>, AllocError>
    requires stands { P.stands points.now }
    requires length { length (P.points points.now) ≡ ni * nj }
    requires within { IsBox area.now ni nj }
    ensures { IfOk result (λ cropped. cropped.items ≡ cropped_points area.now ni nj (P.points points.now)) }
{
    let (first, width) = (area.i0 as usize, (area.i1 - area.i0) as usize + 1);
    let height = (area.j1 + 1 - area.j0) as usize;
    let to_last = width.min(ni as usize - first);
    let mut cropped = Vec::with_capacity(alloc, width * height)?;
    for row in area.j0..area.j1 + 1 {
        let start = row as usize * ni as usize;
        points.add_to(start + first, to_last, &mut cropped)?;
        points.add_to(start, width - to_last, &mut cropped)?;
    }
    Ok(cropped)
}
