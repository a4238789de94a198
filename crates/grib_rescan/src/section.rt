//! Section 3 of a grid in another order, and that of a subarea.

ghost use Rattle.std.specs.Prelude.{◌≡◌, ◌+◌, ◌-◌, ◌*◌, ◌^◌, ◌<◌, ◌≤◌, cond, length, None, IfOk, nat_abs, IsTrue, pos, ◌-ℤ◌};
ghost use Rattle.grib_bits.specs.Octets.{octets, signed_octets};
ghost use Rattle.grib_bits.specs.Encoding.{octets_of};
ghost use Rattle.grib_rescan.specs.Points.{IsBox, width, height};
ghost use Rattle.grib_rescan.specs.Sections.{HasPoints, with_octets, with_size, with_corners, rescanned_section, cropped_section, latitude_at, longitude_at, with_sign, has_known_steps, has_rows, has_columns, has_steps};

use crate::points::Area;
use crate::scanning::Scanning;
use grib_base::MOST_POINTS;
use grib_bits::{signed_of, u8_at, u32_at};
use std::alloc::{AllocError, Global};

/// The Section 3 of a grid of template 3.0 in the order of scanning octet 0: the first corner becomes the
/// north west one, the last the one opposite to it (WMO-No. 306, Volume I.2, FM 92 GRIB edition 2, grid
/// definition template 3.0).
///
/// # Errors
///
/// There is no memory for it.
pub fn rescan_section(alloc: Global, section: &[u8]) -> Result<Vec<u8>, AllocError>
    requires { 72 ≤ length section.now }
    ensures { IfOk result (λ rescanned. rescanned.items ≡ rescanned_section section.now) }
{
    let scanning = Scanning::of(u8_at(section, 72));
    let (la1, la2) = exchange(scanning.northward, &section[46..50], &section[55..59]);
    let (lo1, lo2) = exchange(scanning.westward, &section[50..54], &section[59..63]);
    let mut rescanned = section.to_vec(alloc)?;
    put(&mut rescanned, 47, la1);
    put(&mut rescanned, 51, lo1);
    put(&mut rescanned, 56, la2);
    put(&mut rescanned, 60, lo2);
    put(&mut rescanned, 72, &[0]);
    Ok(rescanned)
}

/// The Section 3 of a subarea of a grid of template 3.0, in the order of scanning octet 0 (WMO-No. 306, Volume
/// I.2, FM 92 GRIB edition 2, grid definition template 3.0).
///
/// # Errors
///
/// There is no memory for it.
pub fn crop_section(alloc: Global, section: &[u8], area: &Area) -> Result<Vec<u8>, AllocError>
    requires grid { HasPoints section.now }
    requires area { IsBox area.now (octets section.now 31 34) (octets section.now 35 38) }
    requires steps { IsTrue (has_steps section.now) }
    ensures { IfOk result (λ cropped. cropped.items ≡ cropped_section area.now section.now) }
{
    let mut cropped = section.to_vec(alloc)?;
    put_box(section, area, &mut cropped);
    Ok(cropped)
}

/// Puts what a subarea of the grid with the Section 3 `grid` has of its own.
fn put_box(grid: &[u8], area: &Area, section: &mut [u8])
    requires grid { HasPoints grid.now }
    requires long { 72 ≤ length section.old }
    requires area { IsBox area.now (octets grid.now 31 34) (octets grid.now 35 38) }
    requires steps { IsTrue (has_steps grid.now) }
    ensures { section.new ≡ with_corners area.now grid.now (with_size area.now section.old) }
{
    put_size(area, section);
    put_corners(grid, area, section);
}

/// Puts the numbers of the points, of the columns and of the rows of a subarea.
fn put_size(area: &Area, section: &mut [u8])
    requires long { 72 ≤ length section.old }
    requires columns { area.now.i0 ≤ area.now.i1 }
    requires rows { area.now.j0 ≤ area.now.j1 }
    requires few { height area.now * width area.now < 2 ^ 32 }
    requires few_columns { area.now.i1 + 1 < 2 ^ 32 }
    requires few_rows { area.now.j1 + 1 < 2 ^ 32 }
    ensures { section.new ≡ with_size area.now section.old }
{
    let (width, height) = (area.i1 + 1 - area.i0, area.j1 + 1 - area.j0);
    put_u32(section, 7, height * width);
    put_u32(section, 31, width);
    put_u32(section, 35, height);
}

/// Puts the first and the last corner of a subarea of the grid with the Section 3 `grid`.
fn put_corners(grid: &[u8], area: &Area, section: &mut [u8])
    requires grid { HasPoints grid.now }
    requires long { 72 ≤ length section.old }
    requires area { IsBox area.now (octets grid.now 31 34) (octets grid.now 35 38) }
    requires steps { IsTrue (has_steps grid.now) }
    ensures { section.new ≡ with_corners area.now grid.now section.old }
{
    put_u32(section, 47, latitude_word(grid, area.j0));
    put_u32(section, 51, longitude(grid, area.i0));
    put_u32(section, 56, latitude_word(grid, area.j1));
    put_u32(section, 60, longitude(grid, area.i1));
}

/// The word of the latitude of row j of a grid whose increments lead from the first point to the last.
fn latitude_word(section: &[u8], j: u32) -> u32
    requires grid { HasPoints section.now }
    requires row { j < octets section.now 35 38 }
    requires steps { IsTrue (has_steps section.now) }
    ensures { result ≡ with_sign (latitude_at section.now j) }
{
    sign_and_magnitude(latitude(section, j))
}

/// A number with sign in 32 bits: the first bit is set where it is negative.
fn sign_and_magnitude(value: i64) -> u32
    requires { nat_abs value < 2 ^ 31 }
    ensures { result ≡ with_sign value }
{
    let magnitude = value.unsigned_abs() as u32;
    if value < 0 {
        0x8000_0000 + magnitude
    } else {
        magnitude
    }
}

/// Whether the increments are known, in 10^-6 degree, and lead from the first point to the last.
pub fn steps_stand(section: &[u8]) -> bool
    requires { HasPoints section.now }
    ensures { result ≡ has_steps section.now }
{
    steps_are_known(section) && rows_stand(section) && columns_stand(section)
}

/// Whether the increments are known, in 10^-6 degree.
fn steps_are_known(section: &[u8]) -> bool
    requires { HasPoints section.now }
    ensures { result ≡ has_known_steps section.now }
{
    u32_at(section, 39) == 0 && u32_at(section, 64) != u32::MAX && u32_at(section, 68) != u32::MAX
}

/// Whether the increment leads from the first row to the last.
fn rows_stand(section: &[u8]) -> bool
    requires { HasPoints section.now }
    ensures { result ≡ has_rows section.now }
{
    latitude(section, u32_at(section, 35) - 1) == signed_at(section, 56)
}

/// Whether the increment leads from the first column to the last.
fn columns_stand(section: &[u8]) -> bool
    requires { HasPoints section.now }
    ensures { result ≡ has_columns section.now }
{
    longitude(section, u32_at(section, 31) - 1) == u32_at(section, 60) % 360_000_000
}

/// The latitude of row j, counted from the north from 0, in 10^-6 degree.
pub(crate) fn latitude(section: &[u8], j: u32) -> i64
    requires grid { HasPoints section.now }
    requires row { j < octets section.now 35 38 }
    ensures { result ≡ latitude_at section.now j }
{
    southward(signed_at(section, 47), j, u32_at(section, 68))
}

/// The latitude that lies this many steps south of the first.
fn southward(first: i64, steps: u32, step: u32) -> i64
    requires first { nat_abs first < 2 ^ 31 }
    requires few { steps ≤ MOST_POINTS }
    ensures { result ≡ first -ℤ pos (steps * step) }
{
    first - i64::from(steps) * i64::from(step)
}

/// The longitude of column i, counted from the west from 0, in 10^-6 degree.
pub(crate) fn longitude(section: &[u8], i: u32) -> u32
    requires { 72 ≤ length section.now }
    ensures { result ≡ longitude_at section.now i }
{
    let east = u64::from(i) * u64::from(u32_at(section, 64));
    ((u64::from(u32_at(section, 51)) + east) % 360_000_000) as u32
}

/// The number with sign of the four octets from `first` on.
fn signed_at(section: &[u8], first: usize) -> i64
    requires counted { 1 ≤ first }
    requires within { first + 3 ≤ length section.now }
    ensures value { result ≡ signed_octets section.now first (first + 3) }
    ensures small { nat_abs result < 2 ^ 31 }
{
    signed_of(u64::from(u32_at(section, first)), 32)
}

/// The two, the other way round if they are to be exchanged.
fn exchange<'a>(exchanged: bool, first: &'a [u8], second: &'a [u8]) -> (&'a [u8], &'a [u8])
    ensures first { result.0.now ≡ cond exchanged second.now first.now }
    ensures second { result.1.now ≡ cond exchanged first.now second.now }
{
    if exchanged {
        (second, first)
    } else {
        (first, second)
    }
}

/// Puts a number of four octets in place of those from `first` on.
fn put_u32(section: &mut [u8], first: usize, value: u32)
    requires counted { 1 ≤ first }
    requires within { first + 3 ≤ length section.old }
    ensures { section.new ≡ with_octets first (octets_of 4 value) section.old }
{
    put(section, first, &value.to_be_bytes());
}

/// Puts these octets in place of those from `first` on.
fn put(section: &mut [u8], first: usize, octets: &[u8])
    requires counted { 1 ≤ first }
    requires within { first + length octets.now ≤ length section.old + 1 }
    ensures { section.new ≡ with_octets first octets.now section.old }
{
    section[first - 1..first - 1 + octets.len()].copy_from_slice(octets);
}
