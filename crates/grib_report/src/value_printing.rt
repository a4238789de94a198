//! Commands that print a text of each field by the values of its points.

ghost use Rattle.std.specs.Prelude.{◌≤◌, ◌++◌, ℕ, List};
ghost use Rattle.grib2_message.specs.Fields.{field_count};
ghost use Rattle.grib_command.specs.Pending.{WritesTo, WritesToAllBut};

use crate::fields::{FieldTexts, write_fields};
use grib_command::{Answered, Ending, Writer, printed, unreadable};
use grib_io::{Sink, Stop};
use grib_stream::Place;
use grib1_sections::Message1;
use grib2_arrival::Arrival;
use grib2_message::{Message, ReadableMessage};
use std::alloc::Global;

/// Prints a text of a message of edition 1, and of each field of a message of edition 2 whose values can be
/// read.
pub trait ValuePrinter {
    /// The text of the message of edition 1 with a number.
    ghost first_text: { Self → List ℕ → ℕ → List ℕ };

    /// The text of a field, counted from 1, of the message of edition 2 with a number.
    ghost field_text: { Self → List ℕ → ℕ → ℕ → List ℕ };

    /// Writes the text of the message of edition 1 with this number.
    fn write_first<T: Sink>(
        &self,
        alloc: Global,
        number: u64,
        message: &Message1<'_>,
        output: &mut T,
    ) -> Result<(), Stop>
        ensures { WritesTo T.contents T.faults T.settled result output.old output.new
            (first_text self.now message.now number) };

    /// Appends the text of a field of the message with this number to the buffer, which is passed on first
    /// where it is full.
    fn append_field<T: Sink>(
        &self,
        alloc: Global,
        number: u64,
        message: &ReadableMessage<'_>,
        field: u32,
        lines: &mut Vec<u8>,
        output: &mut T,
    ) -> Result<(), Stop>
        requires first { 1 ≤ field }
        requires last { field ≤ field_count message.now }
        ensures { WritesToAllBut T.contents T.faults T.settled result output.old output.new
            (lines.old.items ++ field_text self.now message.now number field) lines.new.items };
}

/// The command of what prints a text of each field by the values of its points. A message whose values cannot
/// be read is kept.
#[derive(Clone, Copy, Debug)]
pub struct PrintingValues<P>(pub P);

impl<P: ValuePrinter> Writer for PrintingValues<P> {
    ghost use Rattle.std.specs.Prelude.{refl};
    ghost use Rattle.grib_command.specs.Command.{printing_fields, reading_values};
    ghost use Rattle.grib_command.specs.LawfulCommands.{fields_lawful, reading_lawful};

    ghost definition = { λ printing. reading_values (printing_fields (P.first_text printing.0) (P.field_text printing.0)) };

    ghost lawful = { λ printing. reading_lawful (printing_fields (P.first_text printing.0) (P.field_text printing.0))
        (fields_lawful (P.first_text printing.0) (P.field_text printing.0)) };

    ghost unshelved = { λ printing. refl };

    fn first<T: Sink>(
        &self,
        alloc: Global,
        place: &Place,
        message: &Message1<'_>,
        output: &mut T,
    ) -> Answered {
        printed(self.0.write_first(alloc, place.message, message, output))
    }

    fn second<T: Sink>(
        &self,
        alloc: Global,
        place: &Place,
        message: &Message<'_>,
        output: &mut T,
    ) -> Answered {
        match ReadableMessage::of(message) {
            Ok(message) => {
                let fields = ReadFields {
                    printer: &self.0,
                    number: place.message,
                    message: &message,
                };
                printed(write_fields(&fields, alloc, output))
            }
            Err(opaque) => unreadable(opaque),
        }
    }

    /// No message is heard.
    fn hears(&self) -> bool {
        false
    }

    fn heard<T: Sink>(
        &self,
        _alloc: Global,
        _place: &Place,
        _arrival: &Arrival,
        _output: &mut T,
    ) -> Answered {
        Answered::Memory
    }

    fn ending(&self) -> Ending {
        Ending::Silent
    }
}

/// The fields of the message with this number, as they are printed by their values.
#[derive(Drop)]
struct ReadFields<'a, P> {
    printer: &'a P,
    number: u64,
    message: &'a ReadableMessage<'a>,
}

impl<P: ValuePrinter> FieldTexts for ReadFields<'_, P> {
    ghost count = { λ fields. field_count fields.message.now };

    ghost text = { λ fields. P.field_text fields.printer.now fields.message.now fields.number };

    fn fields(&self) -> u32 {
        self.message.fields()
    }

    fn append<T: Sink>(
        &self,
        alloc: Global,
        field: u32,
        lines: &mut Vec<u8>,
        output: &mut T,
    ) -> Result<(), Stop> {
        self.printer
            .append_field(alloc, self.number, self.message, field, lines, output)
    }
}
