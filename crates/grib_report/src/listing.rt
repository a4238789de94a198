//! `list`: a line for each field.

ghost use Rattle.std.specs.Prelude.{◌≡◌, ◌≤◌, ◌++◌, ℕ, List, length};
ghost use Rattle.grib2_sections.specs.Verdict.{Accepted};
ghost use Rattle.grib_base.specs.declared.profile.Profile.{Profile};
ghost use Rattle.grib2_message.specs.Acceptance.{verdict_under};
ghost use Rattle.grib2_message.specs.Fields.{field_count};
ghost use Rattle.grib2_arrival.specs.Heard.{HeardUnder};
ghost use Rattle.grib_text.specs.Lines.{list_line};
ghost use Rattle.grib_command.specs.Command.{texts_from};
ghost use Rattle.grib_command.specs.Pending.{WritesToAllBut};

use crate::points::{ROOM, append_text};
use crate::printing::Printer;
use grib_command::write_whole;
use grib_io::{Sink, Stop};
use grib_stream::Place;
use grib_text::{list_line, list_line1, summary_line};
use grib1_sections::Message1;
use grib2_arrival::Arrival;
use grib2_message::Message;
use std::alloc::Global;

/// Prints the line of a field.
#[derive(Clone, Copy, Debug)]
pub struct Listing;

impl Printer for Listing {
    ghost use Rattle.grib_text.specs.Lines.{list_line};
    ghost use Rattle.grib_text.specs.Lines1.{list_line1};
    ghost use Rattle.std.specs.Prelude.{true};

    ghost first_text = { λ listing place message. list_line1 message place.message };

    ghost field_text = { λ listing place message. list_line message place.message };

    ghost hearing = { λ listing. true };

    fn write_first<T: Sink>(
        &self,
        alloc: Global,
        place: &Place,
        message: &Message1<'_>,
        output: &mut T,
    ) -> Result<(), Stop> {
        let line = list_line1(alloc, message, place.message)?;
        write_whole(output, line.as_slice())
    }

    fn append_field<T: Sink>(
        &self,
        alloc: Global,
        place: &Place,
        message: &Message<'_>,
        field: u32,
        lines: &mut Vec<u8>,
        output: &mut T,
    ) -> Result<(), Stop> {
        let line = list_line(alloc, message, place.message, field)?;
        append_text(lines, line.as_slice(), output)
    }

    fn hears(&self) -> bool {
        true
    }

    /// Writes the line of each field through one buffer.
    fn write_heard<T: Sink>(
        &self,
        alloc: Global,
        place: &Place,
        arrival: &Arrival,
        output: &mut T,
    ) -> Result<(), Stop> {
        let mut lines = Vec::with_capacity(alloc, ROOM)?;
        append_heard(alloc, place.message, arrival, &mut lines, output)?;
        write_whole(output, lines.as_slice())
    }
}

/// Appends the line of each field to the buffer.
fn append_heard<T: Sink>(
    alloc: Global,
    number: u64,
    arrival: &Arrival,
    lines: &mut Vec<u8>,
    output: &mut T,
) -> Result<(), Stop>
    requires whole { (profile : Profile) × (octets : List ℕ) × HeardUnder profile arrival.now octets
        × (verdict_under profile octets ≡ Accepted (length octets)) }
    ensures { (profile : Profile) (octets : List ℕ) → HeardUnder profile arrival.now octets
        → verdict_under profile octets ≡ Accepted (length octets)
        → WritesToAllBut T.contents T.faults T.settled result output.old output.new
        (lines.old.items ++ texts_from (list_line octets number) (field_count octets) 1) lines.new.items }
{
    let count = arrival.fields();
    for index in 0..count {
        append_field(alloc, number, arrival, index + 1, lines, output)?;
    }
    Ok(())
}

/// Appends the line of a field to the buffer, which is passed on first where it is full.
fn append_field<T: Sink>(
    alloc: Global,
    number: u64,
    arrival: &Arrival,
    field: u32,
    lines: &mut Vec<u8>,
    output: &mut T,
) -> Result<(), Stop>
    requires first { 1 ≤ field }
    requires whole { (profile : Profile) × (octets : List ℕ) × HeardUnder profile arrival.now octets
        × (verdict_under profile octets ≡ Accepted (length octets)) × (field ≤ field_count octets) }
    ensures { (profile : Profile) (octets : List ℕ) → HeardUnder profile arrival.now octets
        → verdict_under profile octets ≡ Accepted (length octets) → field ≤ field_count octets
        → WritesToAllBut T.contents T.faults T.settled result output.old output.new
        (lines.old.items ++ list_line octets number field) lines.new.items }
{
    let summary = arrival.summary(field);
    let line = summary_line(alloc, &summary, number, field)?;
    append_text(lines, line.as_slice(), output)
}
