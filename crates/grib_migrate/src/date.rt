//! The reference time and the end of an interval.

ghost use Rattle.std.specs.Prelude.{◌≡◌, ◌*◌, ◌≤◌, ◌≤ℤ◌, ◌↔◌, pos, length, IsSome, IfSome};
ghost use Rattle.jiff.specs.Words.{signed_nanos};
ghost use Rattle.grib_migrate.specs.Dates as dates;
ghost use Rattle.grib_migrate.specs.Dates.{later_in, IsAt, IsCivil};

use grib_bits::u8_at;
use jiff::SignedDuration;
use jiff::civil::DateTime;

/// A date and a time of day, as their octets state them.
#[derive(Clone, Copy, Debug)]
pub struct Moment {
    pub year: u16,
    pub month: u8,
    pub day: u8,
    pub hour: u8,
    pub minute: u8,
    pub second: u8,
}

/// The reference time of this Section 1, whether there is such a date or not.
pub(crate) fn reference_time(section1: &[u8]) -> Moment
    requires { 28 ≤ length section1.now }
    ensures { result ≡ dates.reference_time section1.now }
{
    let hundreds = 100 * u16::from(u8_at(section1, 25));
    Moment {
        year: (hundreds + u16::from(u8_at(section1, 13))).saturating_sub(100),
        month: u8_at(section1, 14),
        day: u8_at(section1, 15),
        hour: u8_at(section1, 16),
        minute: u8_at(section1, 17),
        second: 0,
    }
}

/// The moment in the calendar, if it is a date and time of years 1 to 9999.
fn civil(moment: Moment) -> Option<DateTime>
    ensures civil { IsSome result ↔ IsCivil moment }
    ensures at { IfSome result (λ at. IsAt at moment × (at.time.subsec_nanosecond ≡ 0)) }
{
    let Moment {
        year,
        month,
        day,
        hour,
        minute,
        second,
    } = moment;
    if year < 1 || year > 9999 || month > 12 || day > 31 {
        return None;
    }
    if hour > 23 || minute > 59 || second > 59 {
        return None;
    }
    DateTime::new(
        year as i16,
        month as i8,
        day as i8,
        hour as i8,
        minute as i8,
        second as i8,
        0,
    )
    .ok()
}

/// Whether the moment is a date and time of years 1 to 9999.
pub fn is_civil(moment: Moment) -> bool
    ensures { result ≡ dates.is_civil moment }
{
    civil(moment).is_some()
}

/// The moment this number of seconds later, if this one is a date and time of years 1 to 9999 and the later one is
/// not after them.
pub fn later(start: Moment, seconds: u32) -> Option<Moment>
    ensures { result ≡ later_in start seconds }
{
    let at = civil(start)?;
    let end = at.checked_add(span_of(seconds)).ok()?;
    Some(moment_of(end))
}

/// A span of this number of seconds.
fn span_of(seconds: u32) -> SignedDuration
    ensures { signed_nanos result ≡ pos (seconds * 1000000000) }
{
    SignedDuration::from_secs(i64::from(seconds))
}

/// The parts of what the calendar has.
fn moment_of(at: DateTime) -> Moment
    requires { pos 1 ≤ℤ at.date.year }
    ensures { IsAt at result }
{
    Moment {
        year: at.year() as u16,
        month: at.month() as u8,
        day: at.day() as u8,
        hour: at.hour() as u8,
        minute: at.minute() as u8,
        second: at.second() as u8,
    }
}
