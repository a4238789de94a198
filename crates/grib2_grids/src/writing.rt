//! Writing Section 3.

ghost use Rattle.std.specs.Prelude.{◌≡◌, ℕ, ◌*◌, ◌%◌, ◌≤◌, List, ◌++◌, length};
ghost use Rattle.grib_bits.specs.Encoding.{AddsOctets};
ghost use Rattle.grib2_grids.specs.declared.templates.LatLon.{LatLon};
ghost use Rattle.grib2_sections.specs.Template.{least_length};
ghost use Rattle.grib2_grids.specs.Grid.{grid_templates};
ghost use Rattle.grib2_grids.specs.Spelled.{IsSectionOf, written_length, template_of, SpelledCommon, SpelledLatLon, SpelledRotation, SpelledMercator, SpelledPolar, SpelledLambert, gaussian_lat_lon};
ghost use Rattle.grib2_grids.specs.Writable.{IsWritable};
ghost use Rattle.grib2_grids.specs.Written.{header, SpelledHeader, section_of_grid, template_octets, WritesTemplate, common_octets, lat_lon_octets, rotation_octets, mercator_octets, polar_octets, lambert_octets};

use crate::templates::{Common, common_of, template};
use crate::{Gaussian, Grid, GridSection, Lambert, LatLon, Mercator, Polar, Rotation};
use grib_bits::{BitWriter, write_list, write_u8, write_u16, write_u32};

/// Writes Section 3 without surplus. Reading the octets gives the value again. What `read_grid` answers
/// can be written, and so can each value whose list of rows and number of points agree with its grid. The
/// writer has the memory already.
pub fn write_grid(value: &GridSection, out: &mut BitWriter)
    requires whole { length out.old.bits % 8 ≡ 0 }
    requires writable { IsWritable value.now }
    requires room { 8 * written_length value.now ≤ out.old.spare }
    ensures section { IsSectionOf value.now (section_of_grid value.now) }
    ensures length { length (section_of_grid value.now) ≡ written_length value.now }
    ensures octets { AddsOctets out.old out.new (section_of_grid value.now) }
    ensures whole { length out.new.bits % 8 ≡ 0 }
{
    let rows = value.rows.as_slice();
    let size = u32::from(value.list_octets);
    let length = template_length(&value.grid) + size * rows.len() as u32;
    write_header(length, value, out);
    write_template(&value.grid, out);
    write_list(rows, size, out);
}

/// The least length of a section with this template, in octets.
fn template_length(grid: &Grid) -> u32
    ensures { result ≡ least_length grid_templates (template_of grid.now) }
{
    match grid {
        Grid::LatLon(_) | Grid::Mercator(_) | Grid::Gaussian(_) => 72,
        Grid::Rotated(_, _) => 84,
        Grid::Polar(_) => 65,
        Grid::Lambert(_) => 81,
    }
}

/// The number of the template.
fn template_number(grid: &Grid) -> u16
    ensures { result ≡ template_of grid.now }
{
    match grid {
        Grid::LatLon(_) => 0,
        Grid::Rotated(_, _) => 1,
        Grid::Mercator(_) => 10,
        Grid::Polar(_) => 20,
        Grid::Lambert(_) => 30,
        Grid::Gaussian(_) => 40,
    }
}

/// Octets 1 to 14, of a section of `length` octets.
fn write_header(length: u32, value: &GridSection, out: &mut BitWriter)
    requires { 112 ≤ out.old.spare }
    ensures octets { AddsOctets out.old out.new (header length value.now.points
        value.now.list_octets value.now.list_meaning (template_of value.now.grid)) }
    ensures spelled { (rest : List ℕ) → SpelledHeader length value.now.points value.now.list_octets
        value.now.list_meaning (template_of value.now.grid) (header length value.now.points
        value.now.list_octets value.now.list_meaning (template_of value.now.grid) ++ rest) }
{
    write_u32(length, out);
    write_u8(3, out);
    write_u8(0, out);
    write_u32(value.points, out);
    write_u8(value.list_octets, out);
    write_u8(value.list_meaning, out);
    write_u16(template_number(&value.grid), out);
}

/// Octets 15 to 38, which all templates share.
fn write_common(value: Common, out: &mut BitWriter)
    requires { 192 ≤ out.old.spare }
    ensures octets { AddsOctets out.old out.new (common_octets value) }
    ensures spelled { (l points list_octets list_meaning template : ℕ) (rest : List ℕ)
        → SpelledCommon value (header l points list_octets list_meaning template
        ++ common_octets value ++ rest) }
{
    write_u8(value.shape, out);
    write_u8(value.radius_scale, out);
    write_u32(value.radius, out);
    write_u8(value.major_scale, out);
    write_u32(value.major, out);
    write_u8(value.minor_scale, out);
    write_u32(value.minor, out);
    write_u32(value.ni, out);
    write_u32(value.nj, out);
}

/// Template 3.0, from octet 15 on.
fn write_lat_lon(value: &LatLon, out: &mut BitWriter)
    requires { 464 ≤ out.old.spare }
    ensures octets { AddsOctets out.old out.new (lat_lon_octets value.now) }
    ensures spelled { (l points list_octets list_meaning template : ℕ) (rest : List ℕ)
        → SpelledLatLon value.now (header l points list_octets list_meaning template
        ++ lat_lon_octets value.now ++ rest) }
{
    write_common(common_of!(value), out);
    write_u32(value.basic, out);
    write_u32(value.subdivisions, out);
    write_u32(value.la1, out);
    write_u32(value.lo1, out);
    write_u8(value.flags, out);
    write_u32(value.la2, out);
    write_u32(value.lo2, out);
    write_u32(value.di, out);
    write_u32(value.dj, out);
    write_u8(value.scanning, out);
}

/// What template 3.1 has after the octets of template 3.0.
fn write_rotation(value: &Rotation, out: &mut BitWriter)
    requires { 96 ≤ out.old.spare }
    ensures octets { AddsOctets out.old out.new (rotation_octets value.now) }
    ensures spelled { (l points list_octets list_meaning template : ℕ) (v : LatLon) (rest : List ℕ)
        → SpelledRotation value.now (header l points list_octets list_meaning template
        ++ lat_lon_octets v ++ rotation_octets value.now ++ rest) }
{
    write_u32(value.pole_la, out);
    write_u32(value.pole_lo, out);
    write_u32(value.angle, out);
}

/// Template 3.10, from octet 15 on.
fn write_mercator(value: &Mercator, out: &mut BitWriter)
    requires { 464 ≤ out.old.spare }
    ensures octets { AddsOctets out.old out.new (mercator_octets value.now) }
    ensures spelled { (l points list_octets list_meaning template : ℕ) (rest : List ℕ)
        → SpelledMercator value.now (header l points list_octets list_meaning template
        ++ mercator_octets value.now ++ rest) }
{
    write_common(common_of!(value), out);
    write_u32(value.la1, out);
    write_u32(value.lo1, out);
    write_u8(value.flags, out);
    write_u32(value.lad, out);
    write_u32(value.la2, out);
    write_u32(value.lo2, out);
    write_u8(value.scanning, out);
    write_u32(value.orientation, out);
    write_u32(value.di, out);
    write_u32(value.dj, out);
}

/// Template 3.20, from octet 15 on.
fn write_polar(value: &Polar, out: &mut BitWriter)
    requires { 408 ≤ out.old.spare }
    ensures octets { AddsOctets out.old out.new (polar_octets value.now) }
    ensures spelled { (l points list_octets list_meaning template : ℕ) (rest : List ℕ)
        → SpelledPolar value.now (header l points list_octets list_meaning template
        ++ polar_octets value.now ++ rest) }
{
    write_common(common_of!(value), out);
    write_u32(value.la1, out);
    write_u32(value.lo1, out);
    write_u8(value.flags, out);
    write_u32(value.lad, out);
    write_u32(value.lov, out);
    write_u32(value.dx, out);
    write_u32(value.dy, out);
    write_u8(value.centre, out);
    write_u8(value.scanning, out);
}

/// Template 3.30, from octet 15 on: template 3.20, and its own numbers.
fn write_lambert(value: &Lambert, out: &mut BitWriter)
    requires { 536 ≤ out.old.spare }
    ensures octets { AddsOctets out.old out.new (lambert_octets value.now) }
    ensures spelled { (l points list_octets list_meaning template : ℕ) (rest : List ℕ)
        → SpelledLambert value.now (header l points list_octets list_meaning template
        ++ lambert_octets value.now ++ rest) }
{
    let polar = template!(Polar, value, {
        la1: value.la1,
        lo1: value.lo1,
        flags: value.flags,
        lad: value.lad,
        lov: value.lov,
        dx: value.dx,
        dy: value.dy,
        centre: value.centre,
        scanning: value.scanning,
    });
    write_polar(&polar, out);
    write_u32(value.latin1, out);
    write_u32(value.latin2, out);
    write_u32(value.pole_la, out);
    write_u32(value.pole_lo, out);
}

/// Template 3.40, from octet 15 on: template 3.0 with n in place of dj.
fn write_gaussian(value: &Gaussian, out: &mut BitWriter)
    requires { 464 ≤ out.old.spare }
    ensures octets { AddsOctets out.old out.new (lat_lon_octets (gaussian_lat_lon value.now)) }
    ensures spelled { (l points list_octets list_meaning template : ℕ) (rest : List ℕ)
        → SpelledLatLon (gaussian_lat_lon value.now) (header l points list_octets list_meaning template
        ++ lat_lon_octets (gaussian_lat_lon value.now) ++ rest) }
{
    let lat_lon = template!(LatLon, value, {
        basic: value.basic,
        subdivisions: value.subdivisions,
        la1: value.la1,
        lo1: value.lo1,
        flags: value.flags,
        la2: value.la2,
        lo2: value.lo2,
        di: value.di,
        dj: value.n,
        scanning: value.scanning,
    });
    write_lat_lon(&lat_lon, out);
}

/// The template, from octet 15 on.
fn write_template(value: &Grid, out: &mut BitWriter)
    requires { 8 * length (template_octets value.now) ≤ out.old.spare }
    ensures { WritesTemplate out.old out.new value.now }
{
    match value {
        Grid::LatLon(lat_lon) => write_lat_lon(lat_lon, out),
        Grid::Rotated(lat_lon, rotation) => {
            write_lat_lon(lat_lon, out);
            write_rotation(rotation, out);
        }
        Grid::Mercator(mercator) => write_mercator(mercator, out),
        Grid::Polar(polar) => write_polar(polar, out),
        Grid::Lambert(lambert) => write_lambert(lambert, out),
        Grid::Gaussian(gaussian) => write_gaussian(gaussian, out),
    }
}
