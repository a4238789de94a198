//! Angles and lengths of a grid, a thousand times as large.

ghost use Rattle.std.specs.Prelude.{◌≡◌, ◌+◌, ◌≤◌, ◌<◌, ◌^◌, true, false, length, MatchResult};
ghost use Rattle.grib_migrate.specs.Grids as grids;
ghost use Rattle.grib_reasons.specs.declared.loss.Loss.TheVariants.{GridNumber};

use crate::Loss;
use grib_bits::uint_at;

/// A number of three octets of Section 2 that is scaled, by its first octet.
#[derive(Clone, Copy, Debug)]
pub(crate) enum Scaled {
    /// An angle with a sign.
    Angle(u32),
    /// A longitude, to which 360 degrees are added where it is negative.
    Longitude(u32),
    /// A length without a sign; all ones is missing.
    Distance(u32),
}

/// The greatest magnitude of an angle that fits, in 10^-3 degree.
const MOST_ANGLE: u32 = 2_147_483;

/// The least length that does not fit, in metres.
const FIRST_LONG: u32 = 4_294_968;

/// A length that is missing.
const NO_DISTANCE: u32 = 16_777_215;

/// 360 degrees in 10^-3 degree.
const CIRCLE: u32 = 360_000;

/// The magnitude of a number of three octets with a sign.
fn magnitude(number: u32) -> u32
    ensures { result ≡ grids.magnitude number }
{
    number % (1 << 23)
}

/// Whether such a number is below 0.
fn is_negative(number: u32) -> bool
    ensures { result ≡ grids.is_negative number }
{
    number > 1 << 23
}

/// An angle in 10^-6 degree, with its sign in the first bit, if it fits.
fn angle(number: u32) -> Option<u32>
    ensures { result ≡ grids.if_fits (grids.angle_fits number) (grids.angle number) }
{
    let magnitude = magnitude(number);
    if magnitude > MOST_ANGLE {
        return None;
    }
    if is_negative(number) {
        Some((1 << 31) + 1000 * magnitude)
    } else {
        Some(1000 * magnitude)
    }
}

/// A longitude in 10^-6 degree from 0 on, if it fits.
fn longitude(number: u32) -> Option<u32>
    ensures { result ≡ grids.if_fits (grids.longitude_fits number) (grids.longitude number) }
{
    if !is_negative(number) {
        return angle(number);
    }
    let east = CIRCLE.checked_sub(magnitude(number))?;
    Some(1000 * east)
}

/// A length in 10^-3 metre, if it fits.
fn distance(number: u32) -> Option<u32>
    ensures { result ≡ grids.if_fits (grids.distance_fits number) (grids.distance number) }
{
    if number == NO_DISTANCE {
        return Some(u32::MAX);
    }
    if number >= FIRST_LONG {
        return None;
    }
    Some(1000 * number)
}

/// What is written for a number of this Section 2, or the loss where it does not fit.
pub(crate) fn scale(section2: &[u8], number: Scaled) -> Result<u32, Loss>
    requires counted { 1 ≤ grids.first_octet number }
    requires within { grids.first_octet number + 2 ≤ length section2.now }
    ensures { MatchResult result
        (λ value. (grids.fits section2.now number ≡ true) × (value ≡ grids.scaled section2.now number))
        (λ loss. (grids.fits section2.now number ≡ false)
        × (loss ≡ GridNumber (grids.first_octet number))) }
{
    let (first, value) = match number {
        Scaled::Angle(first) => (first, angle(uint_at(section2, first as usize, 3))),
        Scaled::Longitude(first) => (first, longitude(uint_at(section2, first as usize, 3))),
        Scaled::Distance(first) => (first, distance(uint_at(section2, first as usize, 3))),
    };
    value.ok_or(Loss::GridNumber(first))
}
