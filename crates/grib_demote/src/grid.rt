//! Section 2: the grid.

ghost use Rattle.std.specs.Prelude.{◌≡◌, ◌+◌, ◌≤◌, ◌<◌, ◌^◌, ◌++◌, None, Some, true, false, length, OnOk};
ghost use Rattle.grib2_grids.specs.Grid as grid2;
ghost use Rattle.grib2_grids.specs.Whole.{IsWhole};
ghost use Rattle.grib_bits.specs.Encoding.{all_octets};
ghost use Rattle.grib_demote.specs.Grids as grids;

use grib_bits::Number::{Four, One, Three, Two};
use grib_bits::{Number, add_numbers, has_bit, u8_at, u16_at, u32_at};
use std::alloc::AllocError;

/// Where the rows differ in length, or an increment is not given.
const MISSING: u32 = 65535;

/// The type of grid of a template.
pub(crate) fn type_of(template: u16) -> Option<u8>
    ensures { result ≡ grids.type_of template }
{
    match template {
        0 => Some(0),
        10 => Some(1),
        20 => Some(5),
        30 => Some(3),
        40 => Some(4),
        _ => None,
    }
}

/// Whether the template is 3.0 or 3.40.
fn is_lat_lon(section3: &[u8]) -> bool
    requires { 65 ≤ length section3.now }
    ensures { result ≡ grids.is_lat_lon section3.now }
{
    matches!(u16_at(section3, 13), 0 | 40)
}

/// Whether there is a list of rows.
pub(crate) fn is_listed(section3: &[u8]) -> bool
    requires { 65 ≤ length section3.now }
    ensures { result ≡ grids.is_listed section3.now }
{
    u8_at(section3, 11) != 0
}

/// The flags.
fn flags(section3: &[u8]) -> u8
    requires { 65 ≤ length section3.now }
    ensures { result ≡ grids.flags section3.now }
{
    if is_lat_lon(section3) {
        u8_at(section3, 55)
    } else {
        u8_at(section3, 47)
    }
}

/// The scanning mode.
fn scanning(section3: &[u8]) -> u8
    requires { IsWhole section3.now }
    ensures { result ≡ grids.scanning section3.now }
{
    if is_lat_lon(section3) {
        return u8_at(section3, 72);
    }
    if u16_at(section3, 13) == 10 {
        u8_at(section3, 60)
    } else {
        u8_at(section3, 65)
    }
}

/// Whether increments are given.
pub(crate) fn are_given(section3: &[u8]) -> bool
    requires { 65 ≤ length section3.now }
    ensures { result ≡ grids.are_given section3.now }
{
    has_bit(flags(section3), 3)
}

/// Whether a flag of the grid, or of its scanning mode, has no place.
pub(crate) fn loses_flags(section3: &[u8]) -> bool
    requires { IsWhole section3.now }
    ensures { result ≡ grids.loses_flags section3.now }
{
    let flags = flags(section3);
    flags / 64 != 0
        || flags % 8 != 0
        || (has_bit(flags, 3) != has_bit(flags, 4) && u16_at(section3, 13) != 40)
        || scanning(section3) % 32 != 0
}

/// Whether the list of rows has another meaning than whole rows, or a row has too many points.
pub(crate) fn loses_rows(section3: &[u8], rows: &[u32]) -> bool
    requires whole { IsWhole section3.now }
    requires rows { rows.now ≡ grid2.row_list section3.now }
    ensures { result ≡ grids.loses_rows section3.now }
{
    if !is_listed(section3) {
        return false;
    }
    u8_at(section3, 12) != 1 || has_long_row(rows)
}

/// Whether a row has more points than two octets can hold.
fn has_long_row(rows: &[u32]) -> bool
    ensures { result ≡ grids.has_long_row rows.now }
{
    rows.iter().any(|row| *row > 65535)
}

/// An angle in 10^-3 degree, with its sign in the first bit of three octets.
fn angle(number: u32) -> u32
    ensures { result ≡ grids.angle number }
{
    let magnitude = number % (1 << 31) / 1000;
    if number > 1 << 31 {
        (1 << 23) + magnitude
    } else {
        magnitude
    }
}

/// A longitude in 10^-3 degree.
fn longitude(number: u32) -> u32
    ensures { result ≡ grids.longitude number }
{
    number / 1000
}

/// A length in metres.
fn distance(number: u32) -> u32
    ensures { result ≡ grids.distance number }
{
    if number == u32::MAX {
        16_777_215
    } else {
        number / 1000
    }
}

/// An increment in 10^-3 degree.
fn increment(given: bool, number: u32) -> u32
    ensures { result ≡ grids.increment given number }
{
    if !given || number == u32::MAX {
        MISSING
    } else {
        number / 1000
    }
}

/// The flags of edition 1.
fn old_flags(section3: &[u8]) -> u8
    requires { 65 ≤ length section3.now }
    ensures { result ≡ grids.old_flags section3.now }
{
    let is_other_earth = u8_at(section3, 15) == 2;
    let relative = has_bit(flags(section3), 5);
    128 * u8::from(are_given(section3)) + 64 * u8::from(is_other_earth) + 8 * u8::from(relative)
}

/// Where the lists begin, with this number of vertical coordinates.
fn list_place(coordinates: u8, section3: &[u8]) -> u8
    requires { 65 ≤ length section3.now }
    ensures { result ≡ grids.list_place coordinates section3.now }
{
    if coordinates == 0 && !is_listed(section3) {
        return 255;
    }
    match u16_at(section3, 13) {
        10 | 30 => 43,
        _ => 33,
    }
}

/// Adds octets 4 to 10.
pub(crate) fn add_header(
    coordinates: u8,
    grid_type: u8,
    section3: &[u8],
    out: &mut Vec<u8>,
) -> Result<(), AllocError>
    requires { 65 ≤ length section3.now }
    ensures { OnOk result (out.new.items ≡ out.old.items ++ all_octets (grids.header coordinates grid_type section3.now)) }
{
    let ni = if is_listed(section3) {
        MISSING
    } else {
        u32_at(section3, 31)
    };
    add_numbers(
        &[
            One(coordinates),
            One(list_place(coordinates, section3)),
            One(grid_type),
            Two(ni),
            Two(u32_at(section3, 35)),
        ],
        out,
    )
}

/// The angle in the four octets from `first` on, in three.
fn angle_at(section3: &[u8], first: usize) -> Number
    requires counted { 1 ≤ first }
    requires near { first < 2 ^ 16 }
    requires within { first + 3 ≤ length section3.now }
    ensures { result ≡ grids.angle_at section3.now first }
{
    Three(angle(u32_at(section3, first)))
}

/// The longitude in the four octets from `first` on, in three.
fn longitude_at(section3: &[u8], first: usize) -> Number
    requires counted { 1 ≤ first }
    requires near { first < 2 ^ 16 }
    requires within { first + 3 ≤ length section3.now }
    ensures { result ≡ grids.longitude_at section3.now first }
{
    Three(longitude(u32_at(section3, first)))
}

/// The length in the four octets from `first` on, in three.
fn distance_at(section3: &[u8], first: usize) -> Number
    requires counted { 1 ≤ first }
    requires near { first < 2 ^ 16 }
    requires within { first + 3 ≤ length section3.now }
    ensures { result ≡ grids.distance_at section3.now first }
{
    Three(distance(u32_at(section3, first)))
}

/// The increment in the four octets from `first` on, in two.
fn increment_at(section3: &[u8], first: usize) -> Number
    requires long { 65 ≤ length section3.now }
    requires counted { 1 ≤ first }
    requires near { first < 2 ^ 16 }
    requires within { first + 3 ≤ length section3.now }
    ensures { result ≡ grids.increment_at section3.now first }
{
    Two(increment(are_given(section3), u32_at(section3, first)))
}

/// N of template 3.40, Dj of template 3.0.
fn last_number(section3: &[u8]) -> Number
    requires { 72 ≤ length section3.now }
    ensures { result ≡ grids.last_number section3.now }
{
    if u16_at(section3, 13) == 40 {
        Two(u32_at(section3, 68))
    } else {
        increment_at(section3, 68)
    }
}

/// Adds octet 11 and further, before the lists.
pub(crate) fn add_template(section3: &[u8], out: &mut Vec<u8>) -> Result<(), AllocError>
    requires { IsWhole section3.now }
    ensures { OnOk result (out.new.items ≡ out.old.items ++ all_octets (grids.template_numbers section3.now)) }
{
    match u16_at(section3, 13) {
        10 => add_numbers(&mercator_numbers(section3), out),
        20 => add_polar(section3, &[Four(0)], out),
        30 => add_polar(section3, &lambert_numbers(section3), out),
        _ => add_numbers(&lat_lon_numbers(section3), out),
    }
}

/// Adds octets 11 to 28 of types 5 and 3, and then the others.
fn add_polar(section3: &[u8], others: &[Number], out: &mut Vec<u8>) -> Result<(), AllocError>
    requires { IsWhole section3.now }
    ensures { OnOk result (out.new.items ≡ out.old.items ++ all_octets (grids.polar section3.now ++ others.now)) }
{
    add_numbers(&polar_numbers(section3), out)?;
    add_numbers(others, out)
}

/// The numbers of octets 11 to 32 of types 0 and 4.
fn lat_lon_numbers(section3: &[u8]) -> [Number; 9]
    requires whole { IsWhole section3.now }
    requires long { 72 ≤ length section3.now }
    ensures { result ≡ grids.lat_lon section3.now }
{
    [
        angle_at(section3, 47),
        longitude_at(section3, 51),
        One(old_flags(section3)),
        angle_at(section3, 56),
        longitude_at(section3, 60),
        increment_at(section3, 64),
        last_number(section3),
        One(scanning(section3)),
        Four(0),
    ]
}

/// The numbers of octets 11 to 42 of type 1.
fn mercator_numbers(section3: &[u8]) -> [Number; 12]
    requires whole { IsWhole section3.now }
    requires long { 72 ≤ length section3.now }
    ensures { result ≡ grids.mercator section3.now }
{
    [
        angle_at(section3, 39),
        longitude_at(section3, 43),
        One(old_flags(section3)),
        angle_at(section3, 52),
        longitude_at(section3, 56),
        angle_at(section3, 48),
        One(0),
        One(scanning(section3)),
        distance_at(section3, 65),
        distance_at(section3, 69),
        Four(0),
        Four(0),
    ]
}

/// The numbers of octets 11 to 28 of types 5 and 3.
fn polar_numbers(section3: &[u8]) -> [Number; 8]
    requires { IsWhole section3.now }
    ensures { result ≡ grids.polar section3.now }
{
    [
        angle_at(section3, 39),
        longitude_at(section3, 43),
        One(old_flags(section3)),
        longitude_at(section3, 52),
        distance_at(section3, 56),
        distance_at(section3, 60),
        One(u8_at(section3, 64)),
        One(scanning(section3)),
    ]
}

/// The numbers of octets 29 to 42 of type 3.
fn lambert_numbers(section3: &[u8]) -> [Number; 5]
    requires { 81 ≤ length section3.now }
    ensures { result ≡ grids.lambert section3.now }
{
    [
        angle_at(section3, 66),
        angle_at(section3, 70),
        angle_at(section3, 74),
        longitude_at(section3, 78),
        Two(0),
    ]
}
