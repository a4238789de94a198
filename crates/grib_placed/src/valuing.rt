//! `dump decimals=` with the places of points.

ghost use Rattle.std.specs.Prelude.{◌≡◌, ◌≤◌, true, is_none, IfOk};
ghost use Rattle.grib_command.specs.Answering.{AnswersByOutput};
ghost use Rattle.grib_placed.specs.Valuing as values;

use crate::causes::message_place_cause;
use crate::form::PointForm;
use crate::texts::{PrintedField, append_field_placed};
use grib_command::{Answered, Ending, Writer, printed, unreadable};
use grib_decimal::DecimalScale;
use grib_io::{Sink, Stop};
use grib_places::laws::what_has_places;
use grib_report::{FieldTexts, decimal_cause, ieee_reference, write_fields};
use grib_stream::{Cause, Place};
use grib_text::list_line;
use grib1_sections::Message1;
use grib2_arrival::Arrival;
use grib2_message::{Message, ReadableMessage};
use std::alloc::{AllocError, Global};

/// The command `dump` with values of this many places, and with the places of points.
#[derive(Clone, Copy, Debug)]
pub struct PlacedValuing {
    pub places: u32,
    pub ghost places_stand: { places ≤ 18 },
}

impl Writer for PlacedValuing {
    ghost use Rattle.std.specs.Prelude.{refl};
    ghost use Rattle.grib_placed.specs.Valuing.{value_placed_command, value_placed_lawful};

    ghost definition = { λ valuing. value_placed_command valuing.places };

    ghost lawful = { λ valuing. value_placed_lawful valuing.places };

    ghost unshelved = { λ valuing. refl };

    fn first<T: Sink>(
        &self,
        _alloc: Global,
        _place: &Place,
        _message: &Message1<'_>,
        _output: &mut T,
    ) -> Answered {
        Answered::Kept(Cause::EditionOne)
    }

    fn second<T: Sink>(
        &self,
        alloc: Global,
        place: &Place,
        message: &Message<'_>,
        output: &mut T,
    ) -> Answered {
        match ReadableMessage::of(message) {
            Ok(message) => write_second(alloc, place, &message, self.places, output),
            Err(opaque) => unreadable(opaque),
        }
    }

    /// No message is heard.
    fn hears(&self) -> bool {
        false
    }

    fn heard<T: Sink>(
        &self,
        _alloc: Global,
        _place: &Place,
        _arrival: &Arrival,
        _output: &mut T,
    ) -> Answered {
        Answered::Memory
    }

    fn ending(&self) -> Ending {
        Ending::Silent
    }
}

/// The cause by which a message cannot be printed: that by its places, or else its first value that is too large for a text.
fn placed_cause(
    alloc: Global,
    message: &ReadableMessage<'_>,
    places: u32,
) -> Result<Option<Cause>, AllocError>
    requires { places ≤ 18 }
    ensures { IfOk result (λ cause. cause ≡ values.value_placed_cause places message.now) }
{
    match message_place_cause(message.message()) {
        Some(cause) => Ok(Some(cause)),
        None => decimal_cause(alloc, message, places),
    }
}

/// Writes what is printed of a message at this place whose values can be read, if its places are told and its values have texts.
fn write_second<T: Sink>(
    alloc: Global,
    place: &Place,
    message: &ReadableMessage<'_>,
    places: u32,
    output: &mut T,
) -> Answered
    requires { places ≤ 18 }
    ensures { AnswersByOutput T.contents T.faults T.settled result place.now.message
        (values.value_placed_given places place.now message.now) output.old output.new }
{
    match placed_cause(alloc, message, places) {
        Ok(None) => {
            let fields = PlacedValues {
                places,
                number: place.message,
                message,
            };
            printed(write_fields(&fields, alloc, output))
        }
        Ok(Some(cause)) => Answered::Kept(cause),
        Err(_) => Answered::Memory,
    }
}

/// The fields of the message with this number, as they are printed with values of this many places, which all have texts, and whose
/// places are told.
#[derive(Drop)]
struct PlacedValues<'a> {
    places: u32,
    number: u64,
    message: &'a ReadableMessage<'a>,
    ghost places_stand: { places ≤ 18 },
    ghost uncaused: { is_none (values.value_placed_cause places message.now) ≡ true },
}

impl FieldTexts for PlacedValues<'_> {
    ghost use Rattle.grib2_message.specs.Fields.{field_count};
    ghost use Rattle.grib_placed.specs.Valuing.{value_placed_text};

    ghost count = { λ fields. field_count fields.message.now };

    ghost text = { λ fields. value_placed_text fields.places fields.message.now fields.number };

    fn fields(&self) -> u32 {
        self.message.fields()
    }

    fn append<T: Sink>(
        &self,
        alloc: Global,
        field: u32,
        lines: &mut Vec<u8>,
        output: &mut T,
    ) -> Result<(), Stop> {
        what_has_places();
        let Some(section3) = self.message.part(field, 3) else {
            unreachable!();
        };
        let column = self.message.column(alloc, field)?;
        let reference = ieee_reference(column.reference);
        let scale = DecimalScale::of(&reference, column.e, column.d, self.places);
        let listed = list_line(alloc, self.message.message(), self.number, field)?;
        let printed = PrintedField {
            listed: listed.as_slice(),
            section3: section3.octets,
            reference: &reference,
            column: &column,
        };
        append_field_placed(alloc, &printed, &PointForm::Decimals(scale), lines, output)
    }
}
