//! The losses of a field, in their order.

ghost use Rattle.std.specs.Prelude.{◌≡◌, ◌≤◌, ◌<◌, ◌+◌, None, Some, true, false, length, List, MatchResult};
ghost use Rattle.grib2_grids.specs.Grid.{row_list};
ghost use Rattle.grib_demote.specs.Losses as losses;
ghost use Rattle.grib_demote.specs.Losses.{first_of, product_losses, parameter_losses, time_losses, form_losses, coordinate_loss};
ghost use Rattle.grib_demote.specs.Demoted.{told_in};
ghost use Rattle.grib2_grids.specs.Whole.{IsWhole as IsWholeGrid};
ghost use Rattle.grib2_products.specs.Whole.{IsWhole};
ghost use Rattle.grib_demote.specs.Held.{Holds, IsDemoted, IsParameter, AreTimes};
ghost use Rattle.grib_demote.specs.Products as products;

use crate::date::loses_date;
use crate::field::Field;
use crate::grid::{loses_flags, loses_rows, type_of};
use crate::level::{Level, level_of};
use crate::product::{Told, has_local};
use crate::time::{has_process, loses_interval, unit_of};
use crate::word::ibm_of;
use grib_bits::{u8_at, u16_at};
use grib_params::{Table, TableMatch, Target};
use grib_reasons::Demotion;
use grib2_grids::is_opaque_grid;

/// What Section 1 has of the product of a field, or the first thing of Sections 1 and 4, or of the template of
/// the grid, that would be lost.
pub(crate) fn check_product(
    field: &Field<'_>,
    table: &Table,
    matching: TableMatch,
) -> Result<Told, Demotion>
    requires { Holds field.now.identification.now field.now.grid.now field.now.product.now field.now.packing.now }
    ensures { MatchResult result
        (λ told. (first_of (product_losses table.now matching field.now.discipline field.now.identification.now
        field.now.grid.now field.now.product.now) ≡ None)
        × (told ≡ told_in table.now matching field.now.discipline field.now.identification.now field.now.product.now)
        × IsDemoted field.now)
        (λ loss. first_of (product_losses table.now matching field.now.discipline field.now.identification.now
        field.now.grid.now field.now.product.now) ≡ Some loss) }
{
    let (version, parameter, level) = check_parameter(field, table, matching)?;
    let unit = check_times(field.identification, field.product)?;
    Ok(Told {
        version,
        parameter,
        level,
        unit,
    })
}

/// The version, the parameter and the level of a field, or the first of them or of the templates that would be
/// lost.
fn check_parameter(
    field: &Field<'_>,
    table: &Table,
    matching: TableMatch,
) -> Result<(u8, u8, Level), Demotion>
    requires { Holds field.now.identification.now field.now.grid.now field.now.product.now field.now.packing.now }
    ensures { MatchResult result
        (λ found. (first_of (parameter_losses table.now matching field.now.discipline field.now.identification.now
        field.now.grid.now field.now.product.now) ≡ None)
        × IsParameter table.now matching field.now found)
        (λ loss. first_of (parameter_losses table.now matching field.now.discipline field.now.identification.now
        field.now.grid.now field.now.product.now) ≡ Some loss) }
{
    let section1 = field.identification;
    let section4 = field.product;
    if loses_product(section4) {
        return Err(Demotion::Product);
    }
    if loses_grid(field.grid) {
        return Err(Demotion::GridTemplate);
    }
    if loses_centre(section1) {
        return Err(Demotion::Centre);
    }
    let Some((version, parameter)) = pair_in(field, table, matching) else {
        return Err(Demotion::Parameter);
    };
    let Some(level) = level_of(section4) else {
        return Err(Demotion::Level);
    };
    Ok((version, parameter, level))
}

/// The code of the unit of time, or the first of the times that would be lost.
fn check_times(section1: &[u8], section4: &[u8]) -> Result<u8, Demotion>
    requires identification { 21 ≤ length section1.now }
    requires product { IsWhole section4.now }
    ensures { MatchResult result
        (λ unit. (first_of (time_losses section1.now section4.now) ≡ None)
        × AreTimes section1.now section4.now unit)
        (λ loss. first_of (time_losses section1.now section4.now) ≡ Some loss) }
{
    let Some(unit) = unit_of(section4) else {
        return Err(Demotion::TimeUnit);
    };
    if !has_process(section4) {
        return Err(Demotion::Process);
    }
    if loses_date(section1) {
        return Err(Demotion::Date);
    }
    if loses_interval(section1, section4, &unit) {
        return Err(Demotion::Interval);
    }
    Ok(unit.code)
}

/// Whether the product is not one of template 4.0 or 4.8.
fn loses_product(section4: &[u8]) -> bool
    requires { 9 ≤ length section4.now }
    ensures { result ≡ losses.loses_product section4.now }
{
    !matches!(u16_at(section4, 8), 0 | 8)
}

/// Whether the grid is opaque, or its template has no type of grid.
fn loses_grid(section3: &[u8]) -> bool
    requires { 14 ≤ length section3.now }
    ensures { result ≡ losses.loses_grid section3.now }
{
    is_opaque_grid(section3) || type_of(u16_at(section3, 13)).is_none()
}

/// Whether the centre or the sub-centre has no place in one octet.
fn loses_centre(section1: &[u8]) -> bool
    requires { 21 ≤ length section1.now }
    ensures { result ≡ products.loses_centre section1.now }
{
    !(u16_at(section1, 6) < 256 && u16_at(section1, 8) < 256)
}

/// The first version and parameter of the centre that stand for the parameter of a field.
fn pair_in(field: &Field<'_>, table: &Table, matching: TableMatch) -> Option<(u8, u8)>
    requires identification { 21 ≤ length field.now.identification.now }
    requires product { 34 ≤ length field.now.product.now }
    requires centre { products.loses_centre field.now.identification.now ≡ false }
    ensures { result ≡ products.pair_in table.now matching field.now.discipline field.now.identification.now
        field.now.product.now }
{
    let target = Target {
        discipline: field.discipline,
        category: u8_at(field.product, 10),
        number: u8_at(field.product, 11),
        master: u8_at(field.identification, 10),
        local: u8_at(field.identification, 11),
    };
    table.first_pair(matching, u16_at(field.identification, 6) as u8, &target)
}

/// The first thing of Section 2, or of the earth, the flags and the list of rows of the grid, that would be lost.
pub(crate) fn form_loss(
    field: &Field<'_>,
    rows: &[u32],
    keep_local: bool,
    any_earth: bool,
) -> Option<Demotion>
    requires whole { IsWholeGrid field.now.grid.now }
    requires rows { rows.now ≡ row_list field.now.grid.now }
    ensures { result ≡ first_of (form_losses keep_local any_earth field.now.local.now field.now.grid.now) }
{
    if has_local(field.local) && !keep_local {
        return Some(Demotion::LocalUse);
    }
    if loses_shape(field.grid, any_earth) {
        return Some(Demotion::EarthShape);
    }
    if loses_flags(field.grid) {
        return Some(Demotion::GridFlags);
    }
    if loses_rows(field.grid, rows) {
        return Some(Demotion::RowList);
    }
    None
}

/// Whether the earth is neither of the two of edition 1, and not any earth will do.
fn loses_shape(section3: &[u8], any_earth: bool) -> bool
    requires { 65 ≤ length section3.now }
    ensures { result ≡ losses.loses_shape any_earth section3.now }
{
    !matches!(u8_at(section3, 15), 0 | 2) && !any_earth
}

/// The first vertical coordinate that would be lost.
pub(crate) fn coordinate_loss(coordinates: &[u32]) -> Option<Demotion>
    ensures { result ≡ losses.coordinate_loss coordinates.now }
{
    let mut place: u32 = 0;
    for word in coordinates {
        place += 1;
        if is_lost(*word, place) {
            return Some(Demotion::Coordinate(place));
        }
    }
    None
}

/// Whether a vertical coordinate at this place would be lost.
fn is_lost(word: u32, place: u32) -> bool
    ensures { result ≡ losses.is_lost word place }
{
    ibm_of(word).is_none() || place == 256
}
