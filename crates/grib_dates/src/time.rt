//! The reference time of a message, and whether it is a date and time.

ghost use Rattle.std.specs.Prelude.{◌≡◌, ◌+◌, ◌≤◌, length};
ghost use Rattle.grib_dates.specs.Times as times;

use grib_bits::{u8_at, u16_at};
use jiff::civil::DateTime;

/// A reference time, as the octets of a Section 1 state it.
#[derive(Clone, Copy, Debug)]
pub struct ReferenceTime {
    pub year: i32,
    pub month: u8,
    pub day: u8,
    pub hour: u8,
    pub minute: u8,
    pub second: u8,
}

/// Whether the reference time of a message of edition 2, whose Section 1 begins at octet 17, is a date and time.
pub fn is_valid_time2(message: &[u8]) -> bool
    requires { 16 + 19 ≤ length message.now }
    ensures { result ≡ times.is_valid_time2 message.now }
{
    is_civil(time2_in(&message[16..]))
}

/// Whether the reference time of a message of edition 1, whose Section 1 begins at octet 9, is a date and time.
pub fn is_valid_time1(message: &[u8]) -> bool
    requires { 8 + 28 ≤ length message.now }
    ensures { result ≡ times.is_valid_time1 message.now }
{
    is_civil(time1_in(&message[8..]))
}

/// The reference time of a Section 1 of edition 2.
fn time2_in(section1: &[u8]) -> ReferenceTime
    requires { 19 ≤ length section1.now }
    ensures { result ≡ times.time2_in section1.now }
{
    ReferenceTime {
        year: i32::from(u16_at(section1, 13)),
        month: u8_at(section1, 15),
        day: u8_at(section1, 16),
        hour: u8_at(section1, 17),
        minute: u8_at(section1, 18),
        second: u8_at(section1, 19),
    }
}

/// The reference time of a Section 1 of edition 1.
fn time1_in(section1: &[u8]) -> ReferenceTime
    requires { 28 ≤ length section1.now }
    ensures { result ≡ times.time1_in section1.now }
{
    let century = i32::from(u8_at(section1, 25));
    ReferenceTime {
        year: 100 * (century - 1) + i32::from(u8_at(section1, 13)),
        month: u8_at(section1, 14),
        day: u8_at(section1, 15),
        hour: u8_at(section1, 16),
        minute: u8_at(section1, 17),
        second: 0,
    }
}

/// Whether the calendar has the time.
fn is_civil(time: ReferenceTime) -> bool
    ensures { result ≡ times.is_civil time }
{
    let ReferenceTime {
        year,
        month,
        day,
        hour,
        minute,
        second,
    } = time;
    if year < -9999 || year > 9999 || month > 12 || day > 31 {
        return false;
    }
    if hour > 23 || minute > 59 || second > 59 {
        return false;
    }
    DateTime::new(
        year as i16,
        month as i8,
        day as i8,
        hour as i8,
        minute as i8,
        second as i8,
        0,
    )
    .is_ok()
}
