//! The centre and the reference time of a field.

ghost use Rattle.std.specs.Prelude.{◌≡◌, Some};
ghost use Rattle.grib_text.specs.Lines as lines;

use grib2_sections::Identification;
use std::fmt;

/// Where and for when a field was made.
#[derive(Clone, Copy, Debug)]
pub(crate) struct Origin {
    centre: u16,
    time: Time,
}

impl Origin {
    /// The origin that Section 1 states.
    pub(crate) fn of(identification: &Identification) -> Self
        ensures centre { result.centre ≡ identification.now.centre }
        ensures time { lines.time_of result.time.year result.time.month result.time.day
            result.time.hour result.time.minute result.time.second ≡ lines.time_text identification.now }
    {
        Origin {
            centre: identification.centre,
            time: Time {
                year: identification.year,
                month: identification.month,
                day: identification.day,
                hour: identification.hour,
                minute: identification.minute,
                second: identification.second,
            },
        }
    }
}

impl fmt::Display for Origin {
    ghost output = { λ o. Some (lines.origin_of o.centre
        (lines.time_of o.time.year o.time.month o.time.day o.time.hour o.time.minute o.time.second)) };

    fn fmt<W: fmt::Write>(&self, f: &mut fmt::Formatter<W>) -> fmt::Result {
        let Origin { centre, time } = *self;
        write!(f, "centre={centre} time={time}")
    }
}

/// A reference time.
#[derive(Clone, Copy, Debug)]
struct Time {
    year: u16,
    month: u8,
    day: u8,
    hour: u8,
    minute: u8,
    second: u8,
}

impl fmt::Display for Time {
    ghost output = { λ t. Some (lines.time_of t.year t.month t.day t.hour t.minute t.second) };

    fn fmt<W: fmt::Write>(&self, f: &mut fmt::Formatter<W>) -> fmt::Result {
        let Time {
            year,
            month,
            day,
            hour,
            minute,
            second,
        } = *self;
        write!(
            f,
            "{year:04}-{month:02}-{day:02}T{hour:02}:{minute:02}:{second:02}"
        )
    }
}
