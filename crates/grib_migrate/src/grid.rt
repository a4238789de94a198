//! Section 3: the grid.

ghost use Rattle.std.specs.Prelude.{◌≡◌, ◌+◌, ◌*◌, ◌≤◌, ◌<◌, ◌++◌, None, Some, length, MatchResult, OnOk};
ghost use Rattle.grib1_sections.specs.Grid as grid1;
ghost use Rattle.grib_bits.specs.Encoding.{all_octets};
ghost use Rattle.grib_migrate.specs.Grids as grids;
ghost use Rattle.grib_migrate.specs.Grids.{grid_loss, loss_among};
ghost use Rattle.grib_migrate.specs.Answered.{IsMigrateFault};
ghost use Rattle.grib_migrate.specs.Held.{HoldsGrid};
ghost use Rattle.grib_migrate.specs.GridParts.{AreNumbers, IsGridPart};

use crate::scaled::Scaled::{Angle, Distance, Longitude};
use crate::scaled::scale;
use crate::{Loss, MigrateFault};
use grib_bits::Number::{Four, One, Two};
use grib_bits::{Number, add_numbers, has_bit, u8_at, u16_at};
use std::alloc::{AllocError, Global};

/// Ni where the rows differ in length.
const ROWS_DIFFER: u16 = 65535;

/// An increment that is missing.
const NO_INCREMENT: u16 = 65535;

/// 60 degrees, in 10^-6 degree.
const TRUE_LATITUDE: u32 = 60_000_000;

/// Octet 6 and further of Section 3, for a grid of `points` points, or the first number that does not fit.
pub(crate) fn grid_octets(
    alloc: Global,
    section2: &[u8],
    points: u32,
) -> Result<Vec<u8>, MigrateFault>
    requires { HoldsGrid section2.now }
    ensures octets { MatchResult result
        (λ octets. (grid_loss section2.now ≡ None) × (octets.items ≡ grids.grid_octets points section2.now)
        × (length octets.items ≤ 131500))
        (IsMigrateFault (grid_loss section2.now)) }
{
    let mut octets = Vec::new(alloc);
    add_header(section2, points, &mut octets)?;
    add_common(section2, &mut octets)?;
    add_template(section2, &mut octets)?;
    octets.extend_from_slice(row_octets(section2))?;
    Ok(octets)
}

/// Whether the rows differ in length.
fn lists_rows(section2: &[u8]) -> bool
    requires { 32 ≤ length section2.now }
    ensures { result ≡ grid1.lists_rows section2.now }
{
    u16_at(section2, 7) == ROWS_DIFFER
}

/// The list of rows, empty where there is none.
fn row_octets(section2: &[u8]) -> &[u8]
    requires { HoldsGrid section2.now }
    ensures octets { result.now ≡ grids.row_octets section2.now }
    ensures few { length result.now ≤ 131070 }
{
    if !lists_rows(section2) {
        return &[];
    }
    let first = usize::from(u8_at(section2, 5)) - 1 + 4 * usize::from(u8_at(section2, 4));
    &section2[first..first + 2 * usize::from(u16_at(section2, 9))]
}

/// The template of a type of grid.
fn template_of(grid_type: u8) -> u32
    ensures { result ≡ grids.template_of grid_type }
{
    match grid_type {
        1 => 10,
        3 => 30,
        4 => 40,
        5 => 20,
        _ => 0,
    }
}

/// Adds octets 6 to 14.
fn add_header(section2: &[u8], points: u32, out: &mut Vec<u8>) -> Result<(), AllocError>
    requires { 32 ≤ length section2.now }
    ensures { OnOk result (out.new.items ≡ out.old.items ++ all_octets (grids.header points section2.now)) }
{
    let is_listed = u8::from(lists_rows(section2));
    let template = template_of(u8_at(section2, 6));
    add_numbers(
        &[
            One(0),
            Four(points),
            One(2 * is_listed),
            One(is_listed),
            Two(template),
        ],
        out,
    )
}

/// Adds octets 15 to 38, which all templates share.
fn add_common(section2: &[u8], out: &mut Vec<u8>) -> Result<(), AllocError>
    requires { 32 ≤ length section2.now }
    ensures { OnOk result (out.new.items ≡ out.old.items ++ all_octets (grids.common section2.now)) }
{
    let shape = 2 * u8::from(has_bit(u8_at(section2, 17), 2));
    let ni = if lists_rows(section2) {
        u32::MAX
    } else {
        u32::from(u16_at(section2, 7))
    };
    let nj = u32::from(u16_at(section2, 9));
    add_numbers(
        &[
            One(shape),
            One(u8::MAX),
            Four(u32::MAX),
            One(u8::MAX),
            Four(u32::MAX),
            One(u8::MAX),
            Four(u32::MAX),
            Four(ni),
            Four(nj),
        ],
        out,
    )
}

/// Adds octet 39 and further of the template.
fn add_template(section2: &[u8], out: &mut Vec<u8>) -> Result<(), MigrateFault>
    requires { HoldsGrid section2.now }
    ensures { IsGridPart result (grid_loss section2.now) out.old.items out.new.items
        (grids.template_numbers section2.now) }
{
    match u8_at(section2, 6) {
        1 => Ok(add_numbers(&mercator_numbers(section2)?, out)?),
        3 => add_lambert(section2, out),
        4 => Ok(add_numbers(
            &lat_lon_numbers(section2, u32::from(u16_at(section2, 26)))?,
            out,
        )?),
        5 => Ok(add_numbers(
            &polar_numbers(section2, true_latitude(u8_at(section2, 27)))?,
            out,
        )?),
        _ => Ok(add_numbers(&lat_lon_numbers(section2, increment(section2, 26))?, out)?),
    }
}

/// Whether increments are given.
fn are_given(section2: &[u8]) -> bool
    requires { 32 ≤ length section2.now }
    ensures { result ≡ grids.are_given section2.now }
{
    has_bit(u8_at(section2, 17), 1)
}

/// The flags of edition 2.
fn new_flags(section2: &[u8]) -> u8
    requires { 32 ≤ length section2.now }
    ensures { result ≡ grids.new_flags section2.now }
{
    let i_given = are_given(section2);
    let j_given = i_given && u8_at(section2, 6) != 4;
    let relative = has_bit(u8_at(section2, 17), 5);
    32 * u8::from(i_given) + 16 * u8::from(j_given) + 8 * u8::from(relative)
}

/// The increment of two octets from octet `first` on.
fn increment(section2: &[u8], first: usize) -> u32
    requires long { 32 ≤ length section2.now }
    requires counted { 1 ≤ first }
    requires within { first ≤ 31 }
    ensures { result ≡ grids.increment section2.now first }
{
    let number = u16_at(section2, first);
    if !are_given(section2) || number == NO_INCREMENT {
        return u32::MAX;
    }
    1000 * u32::from(number)
}

/// Where lengths are true on a polar stereographic grid with this projection centre: 60 degrees, in its hemisphere,
/// in 10^-6 degree, with the sign in the first bit.
pub fn true_latitude(centre: u8) -> u32
    ensures { result ≡ grids.true_latitude centre }
{
    if has_bit(centre, 1) {
        (1 << 31) + TRUE_LATITUDE
    } else {
        TRUE_LATITUDE
    }
}

/// Octets 39 to 72 of template 3.0 or 3.40, with Dj or N, or the first number that does not fit.
fn lat_lon_numbers(section2: &[u8], last: u32) -> Result<[Number; 10], Loss>
    requires { 32 ≤ length section2.now }
    ensures { AreNumbers result (loss_among section2.now grids.lat_lon_scaled) (grids.lat_lon section2.now last) }
{
    Ok([
        Four(0),
        Four(u32::MAX),
        Four(scale(section2, Angle(11))?),
        Four(scale(section2, Longitude(14))?),
        One(new_flags(section2)),
        Four(scale(section2, Angle(18))?),
        Four(scale(section2, Longitude(21))?),
        Four(increment(section2, 24)),
        Four(last),
        One(u8_at(section2, 28)),
    ])
}

/// Octets 39 to 72 of template 3.10.
fn mercator_numbers(section2: &[u8]) -> Result<[Number; 10], Loss>
    requires { 34 ≤ length section2.now }
    ensures { AreNumbers result (loss_among section2.now grids.mercator_scaled) (grids.mercator section2.now) }
{
    let la1 = scale(section2, Angle(11))?;
    let lo1 = scale(section2, Longitude(14))?;
    let la2 = scale(section2, Angle(18))?;
    let lo2 = scale(section2, Longitude(21))?;
    let latin = scale(section2, Angle(24))?;
    Ok([
        Four(la1),
        Four(lo1),
        One(new_flags(section2)),
        Four(latin),
        Four(la2),
        Four(lo2),
        One(u8_at(section2, 28)),
        Four(0),
        Four(scale(section2, Distance(29))?),
        Four(scale(section2, Distance(32))?),
    ])
}

/// Octets 39 to 65 of template 3.20 or 3.30, with the latitude at which Dx and Dy are true.
fn polar_numbers(section2: &[u8], lad: u32) -> Result<[Number; 9], Loss>
    requires { 32 ≤ length section2.now }
    ensures { AreNumbers result (loss_among section2.now grids.polar_scaled) (grids.polar section2.now lad) }
{
    Ok([
        Four(scale(section2, Angle(11))?),
        Four(scale(section2, Longitude(14))?),
        One(new_flags(section2)),
        Four(lad),
        Four(scale(section2, Longitude(18))?),
        Four(scale(section2, Distance(21))?),
        Four(scale(section2, Distance(24))?),
        One(u8_at(section2, 27)),
        One(u8_at(section2, 28)),
    ])
}

/// Octets 66 to 81 of template 3.30.
fn lambert_numbers(section2: &[u8]) -> Result<[Number; 4], Loss>
    requires { 40 ≤ length section2.now }
    ensures { AreNumbers result (loss_among section2.now grids.lambert_own) (grids.lambert section2.now) }
{
    Ok([
        Four(scale(section2, Angle(29))?),
        Four(scale(section2, Angle(32))?),
        Four(scale(section2, Angle(35))?),
        Four(scale(section2, Longitude(38))?),
    ])
}

/// Adds octets 39 to 81 of template 3.30, where LaD is Latin1.
fn add_lambert(section2: &[u8], out: &mut Vec<u8>) -> Result<(), MigrateFault>
    requires { 40 ≤ length section2.now }
    ensures { IsGridPart result (loss_among section2.now grids.lambert_scaled) out.old.items
        out.new.items (grids.polar section2.now (grids.angle (grids.three section2.now 29))
        ++ grids.lambert section2.now) }
{
    let latin1 = scale(section2, Angle(29)).unwrap_or(0);
    let polar = polar_numbers(section2, latin1)?;
    let lambert = lambert_numbers(section2)?;
    add_numbers(&polar, out)?;
    Ok(add_numbers(&lambert, out)?)
}
