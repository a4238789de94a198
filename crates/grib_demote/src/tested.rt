//! The numbers of a grid, and whether they fit.

ghost use Rattle.std.specs.Prelude.{◌≡◌, ◌≤◌, ◌+◌, ◌<◌, ◌^◌, length, List, ◌++◌};
ghost use Rattle.grib2_grids.specs.Whole.{IsWhole};
ghost use Rattle.grib2_grids.specs.Grid as grid2;
ghost use Rattle.grib_demote.specs.Grids as grids;

use crate::grid::{are_given, is_listed};
use grib_bits::{u8_at, u16_at, u32_at};
use grib_migrate::true_latitude;
use grib_reasons::Demotion;

/// A number of Section 3, by the first of its octets.
#[derive(Clone, Copy, Debug)]
pub struct Tested {
    /// The first of its octets.
    pub first: u32,
    /// Whether it fits.
    pub fits: bool,
}

/// The greatest increment, in 10^-6 degree.
const MOST_INCREMENT: u32 = 65_534_000;

/// Whether a number of points fits.
fn count_fits(number: u32) -> bool
    ensures { result ≡ grids.count_fits number }
{
    number < 65535
}

/// Whether an angle is a whole number of 10^-3 degree.
fn angle_fits(number: u32) -> bool
    ensures { result ≡ grids.angle_fits number }
{
    number % (1 << 31) % 1000 == 0
}

/// Whether a longitude is one, and not negative.
fn longitude_fits(number: u32) -> bool
    ensures { result ≡ grids.longitude_fits number }
{
    number < 1 << 31 && number % 1000 == 0
}

/// Whether a length is missing or a whole number of metres.
fn length_fits(number: u32) -> bool
    ensures { result ≡ grids.length_fits number }
{
    number == u32::MAX || number % 1000 == 0
}

/// Whether an increment is not given, missing, or a whole number of 10^-3 degree in two octets.
fn increment_fits(given: bool, number: u32) -> bool
    ensures { result ≡ grids.increment_fits given number }
{
    !given || number == u32::MAX || (number % 1000 == 0 && number <= MOST_INCREMENT)
}

/// The angle in the four octets from `first` on.
fn tested_angle(section3: &[u8], first: u32) -> Tested
    requires counted { 1 ≤ first }
    requires near { first < 2 ^ 16 }
    requires within { first + 3 ≤ length section3.now }
    ensures { result ≡ grids.tested_angle section3.now first }
{
    Tested {
        first,
        fits: angle_fits(u32_at(section3, first as usize)),
    }
}

/// The longitude in the four octets from `first` on.
fn tested_longitude(section3: &[u8], first: u32) -> Tested
    requires counted { 1 ≤ first }
    requires near { first < 2 ^ 16 }
    requires within { first + 3 ≤ length section3.now }
    ensures { result ≡ grids.tested_longitude section3.now first }
{
    Tested {
        first,
        fits: longitude_fits(u32_at(section3, first as usize)),
    }
}

/// The length in the four octets from `first` on.
fn tested_length(section3: &[u8], first: u32) -> Tested
    requires counted { 1 ≤ first }
    requires near { first < 2 ^ 16 }
    requires within { first + 3 ≤ length section3.now }
    ensures { result ≡ grids.tested_length section3.now first }
{
    Tested {
        first,
        fits: length_fits(u32_at(section3, first as usize)),
    }
}

/// Ni, which is not tested with a list of rows.
fn tested_ni(section3: &[u8]) -> Tested
    requires { 65 ≤ length section3.now }
    ensures { result ≡ grids.tested_ni section3.now }
{
    Tested {
        first: 31,
        fits: is_listed(section3) || count_fits(u32_at(section3, 31)),
    }
}

/// Nj.
fn tested_nj(section3: &[u8]) -> Tested
    requires { 65 ≤ length section3.now }
    ensures { result ≡ grids.tested_nj section3.now }
{
    Tested {
        first: 35,
        fits: count_fits(u32_at(section3, 35)),
    }
}

/// The number in four octets that has to be 0.
fn tested_zero(section3: &[u8], first: u32) -> Tested
    requires counted { 1 ≤ first }
    requires near { first < 2 ^ 16 }
    requires within { first + 3 ≤ length section3.now }
    ensures { result ≡ grids.tested_zero section3.now first }
{
    Tested {
        first,
        fits: u32_at(section3, first as usize) == 0,
    }
}

/// The increment in the four octets from `first` on.
fn tested_increment(section3: &[u8], first: u32) -> Tested
    requires long { 65 ≤ length section3.now }
    requires counted { 1 ≤ first }
    requires near { first < 2 ^ 16 }
    requires within { first + 3 ≤ length section3.now }
    ensures { result ≡ grids.tested_increment section3.now first }
{
    Tested {
        first,
        fits: increment_fits(are_given(section3), u32_at(section3, first as usize)),
    }
}

/// N of template 3.40, Dj of template 3.0.
fn tested_last(section3: &[u8]) -> Tested
    requires { 72 ≤ length section3.now }
    ensures { result ≡ grids.tested_last section3.now }
{
    if u16_at(section3, 13) == 40 {
        Tested {
            first: 68,
            fits: u32_at(section3, 68) <= 65535,
        }
    } else {
        tested_increment(section3, 68)
    }
}

/// The first of some numbers that does not fit.
fn loss_among(numbers: &[Tested]) -> Option<Demotion>
    ensures { result ≡ grids.loss_among numbers.now }
{
    let number = numbers.iter().find(|number| !number.fits)?;
    Some(Demotion::GridNumber(number.first))
}

/// That of template 3.0 or 3.40.
fn lat_lon_loss(section3: &[u8]) -> Option<Demotion>
    requires { 72 ≤ length section3.now }
    ensures { result ≡ grids.loss_among (grids.lat_lon_tested section3.now) }
{
    loss_among(&[
        tested_ni(section3),
        tested_nj(section3),
        tested_zero(section3, 39),
        tested_angle(section3, 47),
        tested_longitude(section3, 51),
        tested_angle(section3, 56),
        tested_longitude(section3, 60),
        tested_increment(section3, 64),
        tested_last(section3),
    ])
}

/// That of template 3.10.
fn mercator_loss(section3: &[u8]) -> Option<Demotion>
    requires { 72 ≤ length section3.now }
    ensures { result ≡ grids.loss_among (grids.mercator_tested section3.now) }
{
    loss_among(&[
        tested_ni(section3),
        tested_nj(section3),
        tested_angle(section3, 39),
        tested_longitude(section3, 43),
        tested_angle(section3, 48),
        tested_angle(section3, 52),
        tested_longitude(section3, 56),
        tested_zero(section3, 61),
        tested_length(section3, 65),
        tested_length(section3, 69),
    ])
}

/// That of the numbers that templates 3.20 and 3.30 share, where edition 1 has no place for another LaD.
fn polar_loss(section3: &[u8], lad: u32) -> Option<Demotion>
    requires { 65 ≤ length section3.now }
    ensures { result ≡ grids.loss_among (grids.polar_tested section3.now lad) }
{
    let found = u32_at(section3, 48);
    loss_among(&[
        tested_ni(section3),
        tested_nj(section3),
        tested_angle(section3, 39),
        tested_longitude(section3, 43),
        Tested {
            first: 48,
            fits: angle_fits(found) && found == lad,
        },
        tested_longitude(section3, 52),
        tested_length(section3, 56),
        tested_length(section3, 60),
    ])
}

/// That of template 3.30.
fn lambert_loss(section3: &[u8]) -> Option<Demotion>
    requires { 81 ≤ length section3.now }
    ensures { result ≡ grids.loss_among (grids.polar_tested section3.now (grids.four section3.now 66)
        ++ grids.lambert_tested section3.now) }
{
    let loss = polar_loss(section3, u32_at(section3, 66));
    if loss.is_some() {
        return loss;
    }
    loss_among(&[
        tested_angle(section3, 66),
        tested_angle(section3, 70),
        tested_angle(section3, 74),
        tested_longitude(section3, 78),
    ])
}

/// The first number of a Section 3 that does not fit.
pub(crate) fn grid_loss(section3: &[u8]) -> Option<Demotion>
    requires { IsWhole section3.now }
    ensures { result ≡ grids.grid_loss section3.now }
{
    match u16_at(section3, 13) {
        10 => mercator_loss(section3),
        20 => polar_loss(section3, true_latitude(u8_at(section3, 64))),
        30 => lambert_loss(section3),
        _ => lat_lon_loss(section3),
    }
}
