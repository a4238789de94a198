//! `dump` with the places of points.

ghost use Rattle.std.specs.Prelude.{◌≡◌, true, is_none};
ghost use Rattle.grib_command.specs.Answering.{AnswersByOutput};
ghost use Rattle.grib_placed.specs.Causes as causes;
ghost use Rattle.grib_placed.specs.Commands.{placed_given};
ghost use Rattle.grib_placed.specs.Dumping as dumps;

use crate::causes::message_place_cause;
use crate::form::PointForm;
use crate::texts::{PrintedField, append_field_placed};
use grib_command::{Answered, Ending, Writer, printed, unreadable};
use grib_io::{Sink, Stop};
use grib_places::laws::what_has_places;
use grib_report::{FieldTexts, ieee_reference, write_fields};
use grib_stream::{Cause, Place};
use grib_text::list_line;
use grib1_sections::Message1;
use grib2_arrival::Arrival;
use grib2_message::{Message, ReadableMessage};
use std::alloc::Global;

/// The command `dump` with the places of points.
#[derive(Clone, Copy, Debug)]
pub struct PlacedDumping;

impl Writer for PlacedDumping {
    ghost use Rattle.std.specs.Prelude.{refl};
    ghost use Rattle.grib_placed.specs.Dumping.{dump_placed_command, dump_placed_lawful};

    ghost definition = { λ dumping. dump_placed_command };

    ghost lawful = { λ dumping. dump_placed_lawful };

    ghost unshelved = { λ dumping. refl };

    fn first<T: Sink>(
        &self,
        _alloc: Global,
        _place: &Place,
        _message: &Message1<'_>,
        _output: &mut T,
    ) -> Answered {
        Answered::Kept(Cause::EditionOne)
    }

    fn second<T: Sink>(
        &self,
        alloc: Global,
        place: &Place,
        message: &Message<'_>,
        output: &mut T,
    ) -> Answered {
        match ReadableMessage::of(message) {
            Ok(message) => write_second(alloc, place, &message, output),
            Err(opaque) => unreadable(opaque),
        }
    }

    /// No message is heard.
    fn hears(&self) -> bool {
        false
    }

    fn heard<T: Sink>(
        &self,
        _alloc: Global,
        _place: &Place,
        _arrival: &Arrival,
        _output: &mut T,
    ) -> Answered {
        Answered::Memory
    }

    fn ending(&self) -> Ending {
        Ending::Silent
    }
}

/// Writes what is printed of a message at this place whose values can be read, if its places are told.
fn write_second<T: Sink>(
    alloc: Global,
    place: &Place,
    message: &ReadableMessage<'_>,
    output: &mut T,
) -> Answered
    ensures { AnswersByOutput T.contents T.faults T.settled result place.now.message
        (placed_given dumps.dump_placed_text place.now message.now) output.old output.new }
{
    match message_place_cause(message.message()) {
        None => {
            let fields = PlacedFields {
                number: place.message,
                message,
            };
            printed(write_fields(&fields, alloc, output))
        }
        Some(cause) => Answered::Kept(cause),
    }
}

/// The fields of the message with this number, as they are printed, whose places are told.
#[derive(Drop)]
struct PlacedFields<'a> {
    number: u64,
    message: &'a ReadableMessage<'a>,
    ghost told: { is_none (causes.message_place_cause message.now) ≡ true },
}

impl FieldTexts for PlacedFields<'_> {
    ghost use Rattle.grib2_message.specs.Fields.{field_count};
    ghost use Rattle.grib_placed.specs.Dumping.{dump_placed_text};

    ghost count = { λ fields. field_count fields.message.now };

    ghost text = { λ fields. dump_placed_text fields.message.now fields.number };

    fn fields(&self) -> u32 {
        self.message.fields()
    }

    fn append<T: Sink>(
        &self,
        alloc: Global,
        field: u32,
        lines: &mut Vec<u8>,
        output: &mut T,
    ) -> Result<(), Stop> {
        what_has_places();
        let Some(section3) = self.message.part(field, 3) else {
            unreachable!();
        };
        let column = self.message.column(alloc, field)?;
        let reference = ieee_reference(column.reference);
        let listed = list_line(alloc, self.message.message(), self.number, field)?;
        let printed = PrintedField {
            listed: listed.as_slice(),
            section3: section3.octets,
            reference: &reference,
            column: &column,
        };
        append_field_placed(alloc, &printed, &PointForm::Numbers, lines, output)
    }
}
