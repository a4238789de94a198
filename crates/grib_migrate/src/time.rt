//! Units of time and time ranges.

ghost use Rattle.std.specs.Prelude.{◌≡◌, ◌≤◌, length, IfSome};
ghost use Rattle.grib_migrate.specs.Times as times;

use grib_bits::{u8_at, u16_at};

/// A unit of time: its code (code table 4.4) and its seconds.
#[derive(Clone, Copy, Debug)]
pub struct Unit {
    /// The code in edition 2.
    pub code: u8,
    /// How many seconds it has.
    pub seconds: u32,
}

/// The unit with this code of edition 1, if it is one of those that are migrated.
fn unit_at(old: u8) -> Option<Unit>
    ensures unit { result ≡ times.unit_at old }
    ensures few { IfSome result (λ unit. unit.seconds ≤ 86400) }
{
    let (code, seconds) = match old {
        0 => (0, 60),
        1 => (1, 3600),
        2 => (2, 86_400),
        10 => (10, 10_800),
        11 => (11, 21_600),
        12 => (12, 43_200),
        254 => (13, 1),
        _ => return None,
    };
    Some(Unit { code, seconds })
}

/// The unit of time of this Section 1.
pub(crate) fn unit_of(section1: &[u8]) -> Option<Unit>
    requires { 28 ≤ length section1.now }
    ensures unit { result ≡ times.unit_of section1.now }
    ensures few { IfSome result (λ unit. unit.seconds ≤ 86400) }
{
    unit_at(u8_at(section1, 18))
}

/// Whether the time range is at a point in time.
pub(crate) fn is_instant(range: u8) -> bool
    ensures { result ≡ times.is_instant range }
{
    range == 0 || range == 1 || range == 10
}

/// Whether the time range is one from P1 to P2.
pub(crate) fn is_interval(range: u8) -> bool
    ensures { result ≡ times.is_interval range }
{
    range == 3 || range == 4 || range == 5
}

/// The type of statistical processing of a time range from P1 to P2.
pub(crate) fn statistic(range: u8) -> u8
    ensures { result ≡ times.statistic range }
{
    match range {
        3 => 0,
        4 => 1,
        _ => 4,
    }
}

/// Whether the time range has no place, or ends before it begins.
pub(crate) fn loses_range(section1: &[u8]) -> bool
    requires { 28 ≤ length section1.now }
    ensures { result ≡ times.loses_range section1.now }
{
    let range = u8_at(section1, 21);
    let p1 = u8_at(section1, 19);
    let p2 = u8_at(section1, 20);
    !(is_instant(range) || is_interval(range)) || (is_interval(range) && p2 < p1)
}

/// The type of generating process: 1 initialization, 0 analysis, 2 forecast.
pub(crate) fn process_of(section1: &[u8]) -> u8
    requires { 28 ≤ length section1.now }
    ensures { result ≡ times.process_of section1.now }
{
    match u8_at(section1, 21) {
        1 => 1,
        0 if u8_at(section1, 19) == 0 => 0,
        _ => 2,
    }
}

/// The forecast time.
pub(crate) fn forecast_time(section1: &[u8]) -> u32
    requires { 28 ≤ length section1.now }
    ensures { result ≡ times.forecast_time section1.now }
{
    if u8_at(section1, 21) == 10 {
        u32::from(u16_at(section1, 19))
    } else {
        u32::from(u8_at(section1, 19))
    }
}
