//! What is counted of a message.

ghost use Rattle.std.specs.Prelude.{◌≡◌, length};
ghost use Rattle.grib_command.specs.Judging.{fields_of};
ghost use Rattle.grib_dispatch.specs.Reading.{held_octets};

use crate::reading::Held;
use grib_stream::Whole;

/// The octets and the fields of a message, of whose result this many octets are counted.
pub(crate) fn counted(held: &Held<'_>, written: u64) -> Whole
    ensures octets { result.octets ≡ length (held_octets held.now) }
    ensures fields { result.fields ≡ fields_of (held_octets held.now) }
    ensures written { result.written ≡ written }
{
    match held {
        Held::One(message) => {
            message.octets();
            Whole {
                octets: message.length(),
                fields: 1,
                written,
            }
        }
        Held::Two(message) => {
            message.octets();
            Whole {
                octets: message.length(),
                fields: u64::from(message.fields()),
                written,
            }
        }
    }
}
