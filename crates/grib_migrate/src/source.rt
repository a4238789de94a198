//! The sections of a message of edition 1.

ghost use Rattle.std.specs.Prelude.{◌≡◌, ◌≢◌, ◌≤◌, Some, option_copied};
ghost use Rattle.grib1_sections.specs.Message.{SectionsPass, section_of};
ghost use Rattle.grib1_sections.specs.Acceptance.{identification, grid, bitmap, data_section, points_of, values_of};
ghost use Rattle.grib_migrate.specs.Held.{Holds};

use grib1_sections::Message1;

/// The sections of a message, its grid points, and how many of them are present.
#[derive(Clone, Copy, Debug)]
pub(crate) struct Source<'a> {
    pub identification: &'a [u8],
    pub grid: &'a [u8],
    pub bitmap: Option<&'a [u8]>,
    pub numbers: &'a [u8],
    pub points: u32,
    pub values: u32,
}

impl<'a> Source<'a> {
    /// The sections of this message.
    pub(crate) fn of(message: &Message1<'a>) -> Source<'a>
        ensures identification { result.identification.now ≡ identification message.now }
        ensures grid { result.grid.now ≡ grid message.now }
        ensures bitmap { option_copied result.bitmap ≡ bitmap message.now }
        ensures numbers { result.numbers.now ≡ data_section message.now }
        ensures points { result.points ≡ points_of message.now }
        ensures values { result.values ≡ values_of message.now }
        ensures holds { Holds (identification message.now) (grid message.now)
            (bitmap message.now) (data_section message.now) result.points result.values }
    {
        Source {
            identification: there(message, 1),
            grid: there(message, 2),
            bitmap: message.section(3),
            numbers: there(message, 4),
            points: message.points(),
            values: message.values(),
        }
    }
}

/// The section with this number, 1, 2 or 4, which each message has.
fn there<'a>(message: &Message1<'a>, number: u8) -> &'a [u8]
    requires low { 1 ≤ number }
    requires high { number ≤ 4 }
    requires present { number ≢ 3 }
    ensures section { section_of message.now number ≡ Some result.now }
    ensures passes { SectionsPass message.now }
{
    let Some(section) = message.section(number) else {
        unreachable!();
    };
    section
}
