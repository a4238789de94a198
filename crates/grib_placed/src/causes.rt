//! Why the places of the points of a message are not told.

ghost use Rattle.std.specs.Prelude.{◌≡◌, ◌≤◌};
ghost use Rattle.grib2_message.specs.Fields.{field_count};
ghost use Rattle.grib_placed.specs.Causes as definitions;

use grib_places::laws::what_has_places;
use grib_places::{PlaceCause, place_cause};
use grib_stream::Cause;
use grib2_message::Message;

/// Why the places of the points of a message of edition 2 are not told, if they are not: the first of its fields' causes. A field
/// has one by its grid (WMO-No. 306, Volume I.2, FM 92 GRIB edition 2, Section 3): it is not of template 3.0, has a list of rows or
/// a basic angle, or its scanning mode has one of bits 5 to 8.
pub fn message_place_cause(message: &Message<'_>) -> Option<Cause>
    ensures { result ≡ definitions.message_place_cause message.now }
{
    for index in 0..message.fields() {
        let cause = field_place_cause(message, index + 1);
        if cause.is_some() {
            return cause;
        }
    }
    None
}

/// The cause by the grid of a field, counted from 1.
fn field_place_cause(message: &Message<'_>, field: u32) -> Option<Cause>
    requires first { 1 ≤ field }
    requires last { field ≤ field_count message.now }
    ensures { result ≡ definitions.field_place_cause message.now field }
{
    what_has_places();
    let Some(section3) = message.part(field, 3) else {
        unreachable!();
    };
    match place_cause(section3.octets) {
        Some(cause) => Some(cause_of_field(field, cause)),
        None => None,
    }
}

/// A cause of a field.
fn cause_of_field(field: u32, cause: PlaceCause) -> Cause
    ensures { result ≡ definitions.cause_of_field field cause }
{
    match cause {
        PlaceCause::GridKind => Cause::GridKind { field },
        PlaceCause::ScanMode => Cause::ScanMode { field },
    }
}
