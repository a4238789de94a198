//! Reading Section 3.

ghost use Rattle.std.specs.Prelude.{◌≡◌, ◌≢◌, ◌≤◌, length, None, Err, MatchResult, IfOk, IsOk};
ghost use Rattle.grib_bits.specs.Octets.{octets as octets_of};
ghost use Rattle.grib_base.specs.Rules.{first_fault_at};
ghost use Rattle.grib2_grids.specs.Grid.{grid_rules, list_octets, row_list};
ghost use Rattle.grib2_grids.specs.Whole.{IsWhole, HasNumbers};
ghost use Rattle.grib_base.specs.Faults.{IsReadFault};
ghost use Rattle.grib2_grids.specs.Spelled.{Spelled, SpelledTemplate, template_of, SpelledCommon, SpelledLatLon, SpelledRotation, SpelledMercator, SpelledPolar, SpelledLambert, gaussian_lat_lon};

use crate::rules::{check_grid, list_start};
use crate::templates::{Common, template};
use crate::{Gaussian, Grid, GridSection, Lambert, LatLon, Mercator, Polar, Rotation};
use grib_base::{List, ReadFault, Section};
use grib_bits::{read_list, u8_at, u16_at, u32_at};
use std::alloc::{AllocError, Global};

/// Reads Section 3.
///
/// # Errors
///
/// The first rule of the profile that fails, as `check_grid` tells it. Or there is no memory for the list
/// of rows, where there is one.
pub fn read_grid(alloc: Global, section: &Section<'_>) -> Result<GridSection, ReadFault>
    ensures rules { MatchResult result
        (λ value. (first_fault_at section.now.start (grid_rules section.now.octets.now) ≡ None)
        × Spelled value section.now.octets.now)
        (IsReadFault (first_fault_at section.now.start (grid_rules section.now.octets.now))) }
    ensures memory { list_octets section.now.octets.now ≡ 0 → result ≢ Err ReadFault.Memory }
{
    check_grid(section)?;
    Ok(grid_of(alloc, section.octets)?)
}

/// What a Section 3 says that no rule of the profile refuses.
///
/// # Errors
///
/// There is no memory for the list of rows, where there is one.
pub fn grid_of(alloc: Global, octets: &[u8]) -> Result<GridSection, AllocError>
    requires { HasNumbers octets.now }
    ensures numbers { IfOk result (λ value. Spelled value octets.now) }
    ensures memory { list_octets octets.now ≡ 0 → IsOk result }
{
    let rows = read_rows(alloc, octets)?;
    Ok(GridSection {
        points: u32_at(octets, 7),
        list_octets: u8_at(octets, 11),
        list_meaning: u8_at(octets, 12),
        rows: List::of(rows),
        grid: read_template(octets),
    })
}

/// The list of rows, empty where octet 11 is 0.
fn read_rows(alloc: Global, octets: &[u8]) -> Result<Vec<u32>, AllocError>
    requires { HasNumbers octets.now }
    ensures rows { IfOk result (λ rows. rows.items ≡ row_list octets.now) }
    ensures memory { list_octets octets.now ≡ 0 → IsOk result }
{
    let size = u8_at(octets, 11);
    if size == 0 {
        return Ok(Vec::new(alloc));
    }
    let Some(first) = list_start(u16_at(octets, 13)) else {
        unreachable!();
    };
    let count = u32_at(octets, 35) as usize;
    read_list(alloc, octets, first, usize::from(size), count)
}

/// The template, by its number in octets 13-14.
fn read_template(octets: &[u8]) -> Grid
    requires { IsWhole octets.now }
    ensures template { template_of result ≡ octets_of octets.now 13 14 }
    ensures octets { SpelledTemplate result octets.now }
{
    match u16_at(octets, 13) {
        0 => Grid::LatLon(read_lat_lon(octets)),
        1 => Grid::Rotated(read_lat_lon(octets), read_rotation(octets)),
        10 => Grid::Mercator(read_mercator(octets)),
        20 => Grid::Polar(read_polar(octets)),
        30 => Grid::Lambert(read_lambert(octets)),
        40 => Grid::Gaussian(read_gaussian(octets)),
        _ => unreachable!(),
    }
}

/// Octets 15 to 38, which all templates share.
fn read_common(octets: &[u8]) -> Common
    requires { 38 ≤ length octets.now }
    ensures { SpelledCommon result octets.now }
{
    Common {
        shape: u8_at(octets, 15),
        radius_scale: u8_at(octets, 16),
        radius: u32_at(octets, 17),
        major_scale: u8_at(octets, 21),
        major: u32_at(octets, 22),
        minor_scale: u8_at(octets, 26),
        minor: u32_at(octets, 27),
        ni: u32_at(octets, 31),
        nj: u32_at(octets, 35),
    }
}

/// Template 3.0.
fn read_lat_lon(octets: &[u8]) -> LatLon
    requires { 72 ≤ length octets.now }
    ensures { SpelledLatLon result octets.now }
{
    let common = read_common(octets);
    template!(LatLon, common, {
        basic: u32_at(octets, 39),
        subdivisions: u32_at(octets, 43),
        la1: u32_at(octets, 47),
        lo1: u32_at(octets, 51),
        flags: u8_at(octets, 55),
        la2: u32_at(octets, 56),
        lo2: u32_at(octets, 60),
        di: u32_at(octets, 64),
        dj: u32_at(octets, 68),
        scanning: u8_at(octets, 72),
    })
}

/// What template 3.1 has after the octets of template 3.0.
fn read_rotation(octets: &[u8]) -> Rotation
    requires { 84 ≤ length octets.now }
    ensures { SpelledRotation result octets.now }
{
    Rotation {
        pole_la: u32_at(octets, 73),
        pole_lo: u32_at(octets, 77),
        angle: u32_at(octets, 81),
    }
}

/// Template 3.10.
fn read_mercator(octets: &[u8]) -> Mercator
    requires { 72 ≤ length octets.now }
    ensures { SpelledMercator result octets.now }
{
    let common = read_common(octets);
    template!(Mercator, common, {
        la1: u32_at(octets, 39),
        lo1: u32_at(octets, 43),
        flags: u8_at(octets, 47),
        lad: u32_at(octets, 48),
        la2: u32_at(octets, 52),
        lo2: u32_at(octets, 56),
        scanning: u8_at(octets, 60),
        orientation: u32_at(octets, 61),
        di: u32_at(octets, 65),
        dj: u32_at(octets, 69),
    })
}

/// Template 3.20.
fn read_polar(octets: &[u8]) -> Polar
    requires { 65 ≤ length octets.now }
    ensures { SpelledPolar result octets.now }
{
    let common = read_common(octets);
    template!(Polar, common, {
        la1: u32_at(octets, 39),
        lo1: u32_at(octets, 43),
        flags: u8_at(octets, 47),
        lad: u32_at(octets, 48),
        lov: u32_at(octets, 52),
        dx: u32_at(octets, 56),
        dy: u32_at(octets, 60),
        centre: u8_at(octets, 64),
        scanning: u8_at(octets, 65),
    })
}

/// Template 3.30: the octets of template 3.20, and its own.
fn read_lambert(octets: &[u8]) -> Lambert
    requires { 81 ≤ length octets.now }
    ensures { SpelledLambert result octets.now }
{
    let polar = read_polar(octets);
    template!(Lambert, polar, {
        la1: polar.la1,
        lo1: polar.lo1,
        flags: polar.flags,
        lad: polar.lad,
        lov: polar.lov,
        dx: polar.dx,
        dy: polar.dy,
        centre: polar.centre,
        scanning: polar.scanning,
        latin1: u32_at(octets, 66),
        latin2: u32_at(octets, 70),
        pole_la: u32_at(octets, 74),
        pole_lo: u32_at(octets, 78),
    })
}

/// Template 3.40: template 3.0 with n in place of dj.
fn read_gaussian(octets: &[u8]) -> Gaussian
    requires { 72 ≤ length octets.now }
    ensures { SpelledLatLon (gaussian_lat_lon result) octets.now }
{
    let lat_lon = read_lat_lon(octets);
    template!(Gaussian, lat_lon, {
        basic: lat_lon.basic,
        subdivisions: lat_lon.subdivisions,
        la1: lat_lon.la1,
        lo1: lat_lon.lo1,
        flags: lat_lon.flags,
        la2: lat_lon.la2,
        lo2: lat_lon.lo2,
        di: lat_lon.di,
        n: lat_lon.dj,
        scanning: lat_lon.scanning,
    })
}
