//! Commands that print a text of each field.

ghost use Rattle.std.specs.Prelude.{◌≡◌, ◌≤◌, ◌++◌, ℕ, Bool, true, List, length};
ghost use Rattle.grib2_sections.specs.Verdict.{Accepted};
ghost use Rattle.grib_base.specs.declared.profile.Profile.{Profile};
ghost use Rattle.grib2_message.specs.Acceptance.{verdict_under};
ghost use Rattle.grib2_arrival.specs.Heard.{HeardUnder};
ghost use Rattle.grib2_message.specs.Fields.{field_count};
ghost use Rattle.grib_command.specs.Command.{texts_from};
ghost use Rattle.grib_stream.specs.declared.place.Place.{Place as AtPlace};
ghost use Rattle.grib_command.specs.Pending.{WritesTo, WritesToAllBut};

use crate::fields::{FieldTexts, write_fields};
use grib_command::{Answered, Ending, Writer, printed};
use grib_io::{Sink, Stop};
use grib_stream::Place;
use grib1_sections::Message1;
use grib2_arrival::Arrival;
use grib2_message::Message;
use std::alloc::Global;

/// Prints a text of a message of edition 1, and of each field of a message of edition 2.
pub trait Printer {
    /// The text of the message of edition 1 at a place.
    ghost first_text: { Self → AtPlace → List ℕ → List ℕ };

    /// The text of a field, counted from 1, of the message of edition 2 at a place.
    ghost field_text: { Self → AtPlace → List ℕ → ℕ → List ℕ };

    /// Whether messages of edition 2 are printed by what was heard of them.
    ghost hearing: { Self → Bool };

    /// Writes the text of the message of edition 1 at this place.
    fn write_first<T: Sink>(
        &self,
        alloc: Global,
        place: &Place,
        message: &Message1<'_>,
        output: &mut T,
    ) -> Result<(), Stop>
        ensures { WritesTo T.contents T.faults T.settled result output.old output.new
            (first_text self.now place.now message.now) };

    /// Appends the text of a field of the message at this place to the buffer, which is passed on first
    /// where it is full.
    fn append_field<T: Sink>(
        &self,
        alloc: Global,
        place: &Place,
        message: &Message<'_>,
        field: u32,
        lines: &mut Vec<u8>,
        output: &mut T,
    ) -> Result<(), Stop>
        requires first { 1 ≤ field }
        requires last { field ≤ field_count message.now }
        ensures { WritesToAllBut T.contents T.faults T.settled result output.old output.new
            (lines.old.items ++ field_text self.now place.now message.now field) lines.new.items };

    /// Whether messages of edition 2 are printed by what was heard of them.
    fn hears(&self) -> bool
        ensures { result ≡ hearing self.now };

    /// Writes the text of each field of the message at this place that was heard. Where none is heard, nothing is said.
    fn write_heard<T: Sink>(
        &self,
        alloc: Global,
        place: &Place,
        arrival: &Arrival,
        output: &mut T,
    ) -> Result<(), Stop>
        requires whole { (profile : Profile) × (octets : List ℕ) × HeardUnder profile arrival.now octets
            × (verdict_under profile octets ≡ Accepted (length octets)) }
        ensures { hearing self.now ≡ true → (profile : Profile) (octets : List ℕ)
            → HeardUnder profile arrival.now octets
            → verdict_under profile octets ≡ Accepted (length octets)
            → WritesTo T.contents T.faults T.settled result output.old output.new
            (texts_from (field_text self.now place.now octets) (field_count octets) 1) };
}

/// The command of what prints a text of each field.
#[derive(Clone, Copy, Debug)]
pub struct Printing<P>(pub P);

impl<P: Printer> Writer for Printing<P> {
    ghost use Rattle.std.specs.Prelude.{refl};
    ghost use Rattle.grib_command.specs.Command.{printing_places};
    ghost use Rattle.grib_command.specs.LawfulCommands.{places_lawful, heard_lawful};

    ghost definition = { λ printing. record (printing_places (P.first_text printing.0) (P.field_text printing.0)) {
      hears = P.hearing printing.0;
    } };

    ghost lawful = { λ printing. heard_lawful (printing_places (P.first_text printing.0) (P.field_text printing.0))
        (P.hearing printing.0) (places_lawful (P.first_text printing.0) (P.field_text printing.0)) };

    ghost unshelved = { λ printing. refl };

    fn first<T: Sink>(
        &self,
        alloc: Global,
        place: &Place,
        message: &Message1<'_>,
        output: &mut T,
    ) -> Answered {
        printed(self.0.write_first(alloc, place, message, output))
    }

    fn second<T: Sink>(
        &self,
        alloc: Global,
        place: &Place,
        message: &Message<'_>,
        output: &mut T,
    ) -> Answered {
        let fields = PrintedFields {
            printer: &self.0,
            place,
            message,
        };
        printed(write_fields(&fields, alloc, output))
    }

    fn hears(&self) -> bool {
        self.0.hears()
    }

    fn heard<T: Sink>(
        &self,
        alloc: Global,
        place: &Place,
        arrival: &Arrival,
        output: &mut T,
    ) -> Answered {
        printed(self.0.write_heard(alloc, place, arrival, output))
    }

    fn ending(&self) -> Ending {
        Ending::Silent
    }
}

/// The fields of the message at this place, as they are printed.
#[derive(Drop)]
struct PrintedFields<'a, P> {
    printer: &'a P,
    place: &'a Place,
    message: &'a Message<'a>,
}

impl<P: Printer> FieldTexts for PrintedFields<'_, P> {
    ghost use Rattle.grib2_message.specs.Fields.{field_count};

    ghost count = { λ fields. field_count fields.message.now };

    ghost text = { λ fields. P.field_text fields.printer.now fields.place.now fields.message.now };

    fn fields(&self) -> u32 {
        self.message.fields()
    }

    fn append<T: Sink>(
        &self,
        alloc: Global,
        field: u32,
        lines: &mut Vec<u8>,
        output: &mut T,
    ) -> Result<(), Stop> {
        self.printer
            .append_field(alloc, self.place, self.message, field, lines, output)
    }
}
