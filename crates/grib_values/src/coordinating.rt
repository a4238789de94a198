//! `coordinates`: for each field an array of its latitudes and one of its longitudes.

ghost use Rattle.std.specs.Prelude.{◌≡◌, true, is_none};
ghost use Rattle.grib_placed.specs.Causes as causes;

use crate::coordinates::append_arrays;
use grib_command::{Answered, Ending, Writer, printed};
use grib_io::{Sink, Stop};
use grib_placed::message_place_cause;
use grib_places::laws::what_has_places;
use grib_report::{FieldTexts, write_fields};
use grib_stream::{Cause, Place};
use grib1_sections::Message1;
use grib2_arrival::Arrival;
use grib2_message::Message;
use std::alloc::Global;

/// The command `coordinates`: for each field of a message of edition 2 an array of the latitudes of its points, and one of their
/// longitudes.
#[derive(Clone, Copy, Debug)]
pub struct Coordinating;

impl Writer for Coordinating {
    ghost use Rattle.std.specs.Prelude.{refl};
    ghost use Rattle.grib_values.specs.Coordinates.{coordinates_command, coordinates_lawful};

    ghost definition = { λ coordinating. coordinates_command };

    ghost lawful = { λ coordinating. coordinates_lawful };

    ghost unshelved = { λ coordinating. refl };

    fn first<T: Sink>(
        &self,
        _alloc: Global,
        _place: &Place,
        _message: &Message1<'_>,
        _output: &mut T,
    ) -> Answered {
        Answered::Kept(Cause::EditionOne)
    }

    fn second<T: Sink>(
        &self,
        alloc: Global,
        _place: &Place,
        message: &Message<'_>,
        output: &mut T,
    ) -> Answered {
        match message_place_cause(message) {
            None => {
                let fields = CoordinateFields { message };
                printed(write_fields(&fields, alloc, output))
            }
            Some(cause) => Answered::Kept(cause),
        }
    }

    /// No message is heard.
    fn hears(&self) -> bool {
        false
    }

    fn heard<T: Sink>(
        &self,
        _alloc: Global,
        _place: &Place,
        _arrival: &Arrival,
        _output: &mut T,
    ) -> Answered {
        Answered::Memory
    }

    fn ending(&self) -> Ending {
        Ending::Silent
    }
}

/// The fields of a message whose places are told.
#[derive(Drop)]
struct CoordinateFields<'a> {
    message: &'a Message<'a>,
    ghost told: { is_none (causes.message_place_cause message.now) ≡ true },
}

impl FieldTexts for CoordinateFields<'_> {
    ghost use Rattle.grib2_message.specs.Fields.{field_count};
    ghost use Rattle.grib_values.specs.Coordinates.{field_arrays};

    ghost count = { λ fields. field_count fields.message.now };

    ghost text = { λ fields. field_arrays fields.message.now };

    fn fields(&self) -> u32 {
        self.message.fields()
    }

    fn append<T: Sink>(
        &self,
        alloc: Global,
        field: u32,
        lines: &mut Vec<u8>,
        output: &mut T,
    ) -> Result<(), Stop> {
        what_has_places();
        let Some(section3) = self.message.part(field, 3) else {
            unreachable!();
        };
        append_arrays(alloc, section3.octets, lines, output)
    }
}
