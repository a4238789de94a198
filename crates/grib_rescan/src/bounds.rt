//! What of a grid lies within bounds in degrees.

ghost use Rattle.std.specs.Prelude.{◌≡◌, ◌+◌, ◌%◌, ◌^◌, ◌<◌, ◌≤◌, ◌&&◌, Some, IsTrue, nat_le, int_le, nat_abs, ◌-ℤ◌};
ghost use Rattle.grib_bits.specs.Octets.{octets};
ghost use Rattle.grib_rescan.specs.Sections.{HasPoints, has_steps, longitude_at};
ghost use Rattle.grib_rescan.specs.declared.bounds.Bounds.TheVariants.{Box};
ghost use Rattle.grib_rescan.specs.Bounds.{run_of, nearest, east_of, span, goes_round, row_distance, column_distance, first_column, rows_in, area_of, area_in};

use crate::places::{Closest, Held, Run};
use crate::points::Area;
use crate::section::{latitude, longitude};
use grib_base::MOST_POINTS;
use grib_bits::u32_at;

/// 360 degrees, in 10^-6 degree.
const CIRCLE: i64 = 360_000_000;

/// What is cut out of a grid by latitudes and longitudes, in 10^-6 degree, with sign: north and east are positive.
#[derive(Clone, Copy, Debug, PartialEq, Eq)]
pub enum Bounds {
    /// The points from one parallel to another, and eastward from one meridian to another, both with what lies on them.
    Box {
        north: i32,
        south: i32,
        west: i32,
        east: i32,
    },
    /// The point nearest to a place: in the row and in the column that are nearest, the first of two that are as near.
    Nearest {
        latitude: i32,
        longitude: i32,
    },
}

/// The points of a grid with this Section 3 that lie within bounds, if they are a box (WMO-No. 306, Volume I.2, FM 92
/// GRIB edition 2, grid definition template 3.0). In a grid that goes round the earth its columns are counted from
/// the western bound on, and may go on at the first column of the grid behind the last.
pub fn area_in(section: &[u8], bounds: &Bounds) -> Option<Area>
    requires grid { HasPoints section.now }
    requires steps { IsTrue (has_steps section.now) }
    ensures { result ≡ area_in bounds.now section.now }
{
    match *bounds {
        Bounds::Box {
            north,
            south,
            west,
            east,
        } => box_in(section, north, south, west, east),
        Bounds::Nearest {
            latitude,
            longitude,
        } => {
            let (i, j) = (
                nearest_column(section, longitude),
                nearest_row(section, latitude),
            );
            Some(Area {
                i0: i,
                i1: i,
                j0: j,
                j1: j,
            })
        }
    }
}

/// The points from one parallel to another, and eastward from one meridian to another, if they are a box.
fn box_in(section: &[u8], north: i32, south: i32, west: i32, east: i32) -> Option<Area>
    requires { HasPoints section.now }
    ensures { result ≡ area_in (Box north south west east) section.now }
{
    let rows = rows_between(section, south, north)?;
    let first = first_column(section, west);
    let columns = columns_between(section, first, west, span(west, east))?;
    Some(area_of(u32_at(section, 31), first, rows, columns))
}

/// The box of these rows and of these columns, which are counted from the column `first` of a grid with `ni` columns on.
fn area_of(ni: u32, first: u32, rows: Run, columns: Run) -> Area
    requires few { ni ≤ MOST_POINTS }
    requires first { first < ni }
    requires rows { 1 ≤ rows.count }
    requires few_rows { rows.first + rows.count ≤ MOST_POINTS }
    requires columns { 1 ≤ columns.count }
    requires within { columns.first + columns.count ≤ ni }
    ensures { Some result ≡ area_of ni first (Some rows) (Some columns) }
{
    let i0 = (first + columns.first) % ni;
    Area {
        i0,
        i1: i0 + (columns.count - 1),
        j0: rows.first,
        j1: rows.first + (rows.count - 1),
    }
}

/// The rows between two parallels, if they follow one another.
fn rows_between(section: &[u8], south: i32, north: i32) -> Option<Run>
    requires { HasPoints section.now }
    ensures { result ≡ rows_in south north section.now }
{
    let mut held = Held::none();
    for row in 0..u32_at(section, 35) {
        if is_between(latitude(section, row), south, north) {
            held = held.with(row);
        }
    }
    held.run()
}

/// Whether a latitude lies between two parallels, or on one of them.
fn is_between(latitude: i64, south: i32, north: i32) -> bool
    ensures { result ≡ (int_le south latitude && int_le latitude north) }
{
    i64::from(south) <= latitude && latitude <= i64::from(north)
}

/// The columns that lie no farther east of a meridian, counted from the column `first` on, if they follow one another.
fn columns_between(section: &[u8], first: u32, west: i32, span: u32) -> Option<Run>
    requires grid { HasPoints section.now }
    requires first { first < octets section.now 31 34 }
    ensures { result ≡ run_of (λ k. nat_le (east_of west (longitude_at section.now ((first + k) % octets section.now 31 34))) span)
        (octets section.now 31 34) }
{
    let columns = u32_at(section, 31);
    let mut held = Held::none();
    for place in 0..columns {
        let column = (first + place) % columns;
        if east_of(west, longitude(section, column)) <= span {
            held = held.with(place);
        }
    }
    held.run()
}

/// The column from which a box is looked for: the first one eastward from `west` in a grid that goes round.
fn first_column(section: &[u8], west: i32) -> u32
    requires { HasPoints section.now }
    ensures column { result ≡ first_column west section.now }
    ensures within { result < octets section.now 31 34 }
{
    if goes_round(section) {
        column_east_of(section, west)
    } else {
        0
    }
}

/// The column nearest to a meridian eastward from it.
fn column_east_of(section: &[u8], west: i32) -> u32
    requires { HasPoints section.now }
    ensures column { result ≡ nearest (λ i. east_of west (longitude_at section.now i)) (octets section.now 31 34) }
    ensures within { result < octets section.now 31 34 }
{
    let mut closest = Closest {
        place: 0,
        distance: u64::from(east_of(west, longitude(section, 0))),
    };
    for column in 1..u32_at(section, 31) {
        let distance = east_of(west, longitude(section, column));
        closest = closest.or(column, u64::from(distance));
    }
    closest.place
}

/// Whether Ni times Di is 360 degrees.
fn goes_round(section: &[u8]) -> bool
    requires { HasPoints section.now }
    ensures { result ≡ goes_round section.now }
{
    u64::from(u32_at(section, 31)) * u64::from(u32_at(section, 64)) == 360_000_000
}

/// The row nearest to a parallel.
fn nearest_row(section: &[u8], latitude: i32) -> u32
    requires grid { HasPoints section.now }
    requires steps { IsTrue (has_steps section.now) }
    ensures { result ≡ nearest (row_distance latitude section.now) (octets section.now 35 38) }
{
    let mut closest = Closest {
        place: 0,
        distance: row_distance(section, latitude, 0),
    };
    for row in 1..u32_at(section, 35) {
        closest = closest.or(row, row_distance(section, latitude, row));
    }
    closest.place
}

/// How far a row is from a parallel.
fn row_distance(section: &[u8], parallel: i32, row: u32) -> u64
    requires grid { HasPoints section.now }
    requires row { row < octets section.now 35 38 }
    requires steps { IsTrue (has_steps section.now) }
    ensures { result ≡ row_distance parallel section.now row }
{
    distance_from(latitude(section, row), parallel)
}

/// How far a latitude is from a parallel.
fn distance_from(latitude: i64, parallel: i32) -> u64
    requires { nat_abs latitude < 2 ^ 31 }
    ensures { result ≡ nat_abs (latitude -ℤ parallel) }
{
    (latitude - i64::from(parallel)).unsigned_abs()
}

/// The column nearest to a meridian.
fn nearest_column(section: &[u8], longitude: i32) -> u32
    requires { HasPoints section.now }
    ensures { result ≡ nearest (column_distance longitude section.now) (octets section.now 31 34) }
{
    let mut closest = Closest {
        place: 0,
        distance: column_distance(section, longitude, 0),
    };
    for column in 1..u32_at(section, 31) {
        closest = closest.or(column, column_distance(section, longitude, column));
    }
    closest.place
}

/// How far a column is from a meridian, the shorter way round.
fn column_distance(section: &[u8], meridian: i32, column: u32) -> u64
    requires { HasPoints section.now }
    ensures { result ≡ column_distance meridian section.now column }
{
    let east = east_of(meridian, longitude(section, column));
    u64::from(east.min(360_000_000 - east))
}

/// How far east of a meridian a longitude lies, from 0 to below 360 degrees.
fn east_of(meridian: i32, longitude: u32) -> u32
    ensures distance { result ≡ east_of meridian longitude }
    ensures less { result < 360000000 }
{
    let difference = i64::from(longitude) - i64::from(meridian);
    difference.rem_euclid(CIRCLE).unsigned_abs() as u32
}

/// How far it is eastward from one meridian to another: 360 degrees where they are as far from one another, or farther.
fn span(west: i32, east: i32) -> u32
    ensures { result ≡ span west east }
{
    let difference = i64::from(east) - i64::from(west);
    if west <= east {
        return difference.unsigned_abs().min(360_000_000) as u32;
    }
    difference.rem_euclid(CIRCLE).unsigned_abs() as u32
}
