//! The shapes of the arrays of fields.

ghost use Rattle.std.specs.Prelude.{◌≡◌, ◌≤◌, false, length, IfSome};
ghost use Rattle.grib2_sections.specs.Template.{least_length};
ghost use Rattle.grib2_grids.specs.Grid as grid2;
ghost use Rattle.grib2_grids.specs.Opaque as opaque_grids;
ghost use Rattle.grib1_sections.specs.Grid as grid1;
ghost use Rattle.grib_values.specs.Shapes as definitions;

use grib_arrays::Shape;
use grib_bits::{u8_at, u16_at, u32_at};
use grib_rescan::Scanning;
use grib2_grids::is_opaque_grid;

/// The shape of the array of a field of edition 2, by its Section 3.
pub(crate) fn second_shape(section: &[u8]) -> Shape
    requires head { 14 ≤ length section.now }
    requires long { opaque_grids.is_opaque_grid section.now ≡ false
        → least_length grid2.grid_templates (grid2.grid_template section.now) ≤ length section.now }
    ensures { result ≡ definitions.shape_2 section.now }
{
    if is_opaque_grid(section) || u8_at(section, 11) != 0 {
        return Shape::Points(u32_at(section, 7));
    }
    match scanning_place(u16_at(section, 13)) {
        Some(place) => {
            let scanning = u8_at(section, place);
            table(scanning, u32_at(section, 31), u32_at(section, 35))
        }
        None => Shape::Points(u32_at(section, 7)),
    }
}

/// The shape of the array of a message of edition 1, by its Section 2 and the number of its grid points.
pub(crate) fn first_shape(section: &[u8], points: u32) -> Shape
    requires long { 28 ≤ length section.now }
    requires points { points ≡ grid1.grid_points section.now }
    ensures { result ≡ definitions.shape_1 section.now }
{
    let ni = u16_at(section, 7);
    if ni == u16::MAX {
        return Shape::Points(points);
    }
    let scanning = u8_at(section, 28);
    table(scanning, u32::from(ni), u32::from(u16_at(section, 9)))
}

/// The octet of Section 3 at which the scanning mode stands in this template, where it is one of the profile.
fn scanning_place(template: u16) -> Option<usize>
    ensures place { result ≡ definitions.scanning_place template }
    ensures low { IfSome result (λ place. 60 ≤ place) }
    ensures within { IfSome result (λ place. place ≤ least_length grid2.grid_templates template) }
{
    match template {
        0 | 1 | 40 => Some(72),
        10 => Some(60),
        20 | 30 => Some(65),
        _ => None,
    }
}

/// The shape of a grid of `ni` columns and `nj` rows, by its scanning mode.
fn table(scanning: u8, ni: u32, nj: u32) -> Shape
    ensures { result ≡ definitions.table scanning ni nj }
{
    if Scanning::of(scanning).by_columns {
        Shape::Table {
            outer: ni,
            inner: nj,
        }
    } else {
        Shape::Table {
            outer: nj,
            inner: ni,
        }
    }
}
