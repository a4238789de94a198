//! Units of time, processes and time ranges.

ghost use Rattle.std.specs.Prelude.{◌≡◌, ◌≢◌, ◌≤◌, ◌<◌, true, Some, length, option_map, IfSome};
ghost use Rattle.grib2_products.specs.Whole.{IsWhole};
ghost use Rattle.grib_demote.specs.Times as times;

use crate::date::{is_after, moment_at, reference_time};
use grib_bits::{u8_at, u16_at, u32_at};

/// A unit of time: its code in edition 1 and its seconds.
#[derive(Clone, Copy, Debug)]
pub(crate) struct Unit {
    /// The code in edition 1.
    pub code: u8,
    /// How many seconds it has.
    pub seconds: u32,
}

/// A time range of edition 1: octets 19 to 21 and 24 of Section 1.
#[derive(Clone, Copy, Debug)]
pub struct TimeRange {
    /// The indicator (code table 5).
    pub indicator: u8,
    /// P1, or the first octet of a time of two.
    pub p1: u8,
    /// P2, or the second octet of a time of two.
    pub p2: u8,
    /// How many fields are missing.
    pub missing: u8,
}

/// The unit with this code of edition 2, if it is one of those that are migrated.
fn unit_at(code: u8) -> Option<Unit>
    ensures code { option_map (λ unit. unit.code) result ≡ option_map (λ row. row.old) (times.unit_at code) }
    ensures seconds { option_map (λ unit. unit.seconds) result
        ≡ option_map (λ row. row.unit.seconds) (times.unit_at code) }
    ensures few { IfSome result (λ unit. unit.seconds ≤ 86400) }
{
    let (code, seconds) = match code {
        0 => (0, 60),
        1 => (1, 3600),
        2 => (2, 86_400),
        10 => (10, 10_800),
        11 => (11, 21_600),
        12 => (12, 43_200),
        13 => (254, 1),
        _ => return None,
    };
    Some(Unit { code, seconds })
}

/// The unit of time of this Section 4.
pub(crate) fn unit_of(section4: &[u8]) -> Option<Unit>
    requires { 34 ≤ length section4.now }
    ensures code { option_map (λ unit. unit.code) result ≡ option_map (λ row. row.old) (times.unit_of section4.now) }
    ensures seconds { option_map (λ unit. unit.seconds) result
        ≡ option_map (λ row. row.unit.seconds) (times.unit_of section4.now) }
    ensures few { IfSome result (λ unit. unit.seconds ≤ 86400) }
{
    unit_at(u8_at(section4, 18))
}

/// Whether the product is over an interval.
pub(crate) fn is_interval(section4: &[u8]) -> bool
    requires { 34 ≤ length section4.now }
    ensures { result ≡ times.is_interval section4.now }
{
    u16_at(section4, 8) == 8
}

/// Whether edition 1 can express the generating process with the forecast time.
pub(crate) fn has_process(section4: &[u8]) -> bool
    requires { 34 ≤ length section4.now }
    ensures { result ≡ times.has_process section4.now }
{
    let process = u8_at(section4, 12);
    let time = u32_at(section4, 19);
    if is_interval(section4) {
        return process == 2;
    }
    (process == 0 && time == 0) || (process == 1 && time <= 255) || (process == 2 && time <= 65_535)
}

/// The units from the reference time to the end of an interval.
fn end_time(section4: &[u8]) -> u64
    requires { 58 ≤ length section4.now }
    ensures { result ≡ times.end_time section4.now }
{
    u64::from(u32_at(section4, 19)) + u64::from(u32_at(section4, 50))
}

/// Whether this is a type of statistical processing of edition 1.
fn is_statistic(process: u8) -> bool
    ensures { result ≡ times.is_statistic process }
{
    process == 0 || process == 1 || process == 4
}

/// Whether an interval with one time range, as edition 1 can express it.
fn has_range(section4: &[u8]) -> bool
    requires whole { IsWhole section4.now }
    requires interval { times.is_interval section4.now ≡ true }
    ensures { result ≡ times.has_range section4.now }
{
    if u8_at(section4, 42) != 1 {
        return false;
    }
    is_statistic(u8_at(section4, 47))
        && u8_at(section4, 48) == 2
        && u8_at(section4, 49) == u8_at(section4, 18)
        && u32_at(section4, 55) == 0
        && end_time(section4) <= 255
        && u32_at(section4, 43) <= 255
}

/// Whether the interval ends where its time range does.
fn has_end(section1: &[u8], section4: &[u8], unit: &Unit) -> bool
    requires identification { 21 ≤ length section1.now }
    requires long { 58 ≤ length section4.now }
    requires unit { Some unit.now.seconds ≡ option_map (λ row. row.unit.seconds) (times.unit_of section4.now) }
    requires few { unit.now.seconds ≤ 86400 }
    requires near { times.end_time section4.now ≤ 255 }
    ensures { result ≡ times.has_end section1.now section4.now }
{
    let seconds = end_time(section4) as u32 * unit.seconds;
    is_after(reference_time(section1), seconds, &moment_at(section4, 35))
}

/// Whether an interval has no place, in the unit of the product.
pub(crate) fn loses_interval(section1: &[u8], section4: &[u8], unit: &Unit) -> bool
    requires identification { 21 ≤ length section1.now }
    requires whole { IsWhole section4.now }
    requires unit { Some unit.now.seconds ≡ option_map (λ row. row.unit.seconds) (times.unit_of section4.now) }
    requires few { unit.now.seconds ≤ 86400 }
    ensures { result ≡ times.loses_interval section1.now section4.now }
{
    if !is_interval(section4) {
        return false;
    }
    if !has_range(section4) {
        return true;
    }
    !has_end(section1, section4, unit)
}

/// The time range at a point in time, of this process.
fn instant_range(process: u8, time: u32) -> TimeRange
    requires two { time ≤ 65535 }
    requires one { process ≢ 2 → time ≤ 255 }
    ensures { result ≡ times.instant_range process time }
{
    let (indicator, p1, p2) = match process {
        1 => (1, time as u8, 0),
        2 if time == 0 || time > 255 => (10, (time / 256) as u8, (time % 256) as u8),
        _ => (0, time as u8, 0),
    };
    TimeRange {
        indicator,
        p1,
        p2,
        missing: 0,
    }
}

/// The time range of a Section 4 of which nothing is lost.
pub(crate) fn time_range(section4: &[u8]) -> TimeRange
    requires whole { IsWhole section4.now }
    requires process { times.has_process section4.now ≡ true }
    requires range { times.is_interval section4.now ≡ true → times.has_range section4.now ≡ true }
    ensures { result ≡ times.time_range section4.now }
{
    if !is_interval(section4) {
        return instant_range(u8_at(section4, 12), u32_at(section4, 19));
    }
    let indicator = match u8_at(section4, 47) {
        0 => 3,
        1 => 4,
        _ => 5,
    };
    TimeRange {
        indicator,
        p1: u32_at(section4, 19) as u8,
        p2: end_time(section4) as u8,
        missing: u32_at(section4, 43) as u8,
    }
}
