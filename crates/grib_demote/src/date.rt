//! The reference time and the end of an interval.

ghost use Rattle.std.specs.Prelude.{◌≡◌, ◌+◌, ◌≤◌, ◌<◌, ◌^◌, length};
ghost use Rattle.grib_demote.specs.Dates as dates;

use grib_bits::{u8_at, u16_at};
use grib_migrate::date::{Moment, is_civil, later};

/// The date and time in the seven octets from `first` on.
pub(crate) fn moment_at(section: &[u8], first: usize) -> Moment
    requires counted { 1 ≤ first }
    requires near { first < 2 ^ 32 }
    requires within { first + 6 ≤ length section.now }
    ensures { result ≡ dates.moment_at section.now first }
{
    Moment {
        year: u16_at(section, first),
        month: u8_at(section, first + 2),
        day: u8_at(section, first + 3),
        hour: u8_at(section, first + 4),
        minute: u8_at(section, first + 5),
        second: u8_at(section, first + 6),
    }
}

/// The reference time of a Section 1.
pub(crate) fn reference_time(section1: &[u8]) -> Moment
    requires { 21 ≤ length section1.now }
    ensures { result ≡ dates.reference_time section1.now }
{
    moment_at(section1, 13)
}

/// Whether the reference time is no date and time of years 1 to 9999, or not on the minute.
pub(crate) fn loses_date(section1: &[u8]) -> bool
    requires { 21 ≤ length section1.now }
    ensures { result ≡ dates.loses_date section1.now }
{
    let start = reference_time(section1);
    !is_civil(start) || start.second != 0
}

/// Whether two moments are one.
fn is_same(a: &Moment, b: &Moment) -> bool
    ensures { result ≡ dates.is_same a.now b.now }
{
    a.year == b.year
        && a.month == b.month
        && a.day == b.day
        && a.hour == b.hour
        && a.minute == b.minute
        && a.second == b.second
}

/// Whether a moment is this number of seconds after a start, and both are of years 1 to 9999.
pub(crate) fn is_after(start: Moment, seconds: u32, end: &Moment) -> bool
    ensures { result ≡ dates.is_after start seconds end.now }
{
    match later(start, seconds) {
        Some(at) => is_same(end, &at),
        None => false,
    }
}

/// The century of a year, counted from 1.
pub(crate) fn century(section1: &[u8]) -> u8
    requires long { 21 ≤ length section1.now }
    requires year { (dates.reference_time section1.now).year ≤ 9999 }
    ensures { result ≡ dates.century section1.now }
{
    (u16_at(section1, 13).saturating_sub(1) / 100 + 1) as u8
}

/// The year of its century, 1 to 100.
pub(crate) fn year_of_century(section1: &[u8]) -> u8
    requires long { 21 ≤ length section1.now }
    requires year { (dates.reference_time section1.now).year ≤ 9999 }
    ensures { result ≡ dates.year_of_century section1.now }
{
    let hundreds = 100 * (u16::from(century(section1)) - 1);
    u16_at(section1, 13).saturating_sub(hundreds) as u8
}
