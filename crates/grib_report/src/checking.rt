//! `check`: a line for each message, and one on the whole input.

ghost use Rattle.std.specs.Prelude.{◌≡◌, ℕ, List, length};
ghost use Rattle.grib2_sections.specs.Verdict.{Accepted};
ghost use Rattle.grib_base.specs.declared.profile.Profile.{Profile};
ghost use Rattle.grib2_message.specs.Acceptance.{verdict_under};
ghost use Rattle.grib2_arrival.specs.Heard.{HeardUnder};
ghost use Rattle.grib2_message.specs.Fields.{field_count};
ghost use Rattle.grib_text.specs.Lines as printed_lines;
ghost use Rattle.grib_command.specs.Pending.{WritesTo};

use grib_command::{Answered, Ending, Writer, printed, write_whole};
use grib_io::{Sink, Stop};
use grib_stream::Place;
use grib_text::check_line;
use grib1_sections::Message1;
use grib2_arrival::Arrival;
use grib2_message::Message;
use std::alloc::Global;

/// The command `check`.
#[derive(Clone, Copy, Debug)]
pub struct Checking;

impl Writer for Checking {
    ghost use Rattle.std.specs.Prelude.{refl};
    ghost use Rattle.grib_report.specs.Checking.{check_command, check_lawful};

    ghost definition = { λ checking. check_command };

    ghost lawful = { λ checking. check_lawful };

    ghost unshelved = { λ checking. refl };

    fn first<T: Sink>(
        &self,
        alloc: Global,
        place: &Place,
        message: &Message1<'_>,
        output: &mut T,
    ) -> Answered {
        printed(write_first(alloc, place, message, output))
    }

    fn second<T: Sink>(
        &self,
        alloc: Global,
        place: &Place,
        message: &Message<'_>,
        output: &mut T,
    ) -> Answered {
        printed(write_second(alloc, place, message, output))
    }

    fn hears(&self) -> bool {
        true
    }

    fn heard<T: Sink>(
        &self,
        alloc: Global,
        place: &Place,
        arrival: &Arrival,
        output: &mut T,
    ) -> Answered {
        printed(write_heard(alloc, place, arrival, output))
    }

    fn ending(&self) -> Ending {
        Ending::Total
    }
}

/// Writes the line of a message of edition 1.
fn write_first<T: Sink>(
    alloc: Global,
    place: &Place,
    message: &Message1<'_>,
    output: &mut T,
) -> Result<(), Stop>
    ensures { WritesTo T.contents T.faults T.settled result output.old output.new
        (printed_lines.check_line place.now.message place.now.before 1 (length message.now) 1) }
{
    let total = message.length();
    let line = check_line(alloc, place.message, place.before, 1, total, 1)?;
    write_whole(output, line.as_slice())
}

/// Writes the line of a message of edition 2.
fn write_second<T: Sink>(
    alloc: Global,
    place: &Place,
    message: &Message<'_>,
    output: &mut T,
) -> Result<(), Stop>
    ensures { WritesTo T.contents T.faults T.settled result output.old output.new
        (printed_lines.check_line place.now.message place.now.before 2 (length message.now)
        (field_count message.now)) }
{
    let total = message.length();
    let line = check_line(
        alloc,
        place.message,
        place.before,
        2,
        total,
        message.fields(),
    )?;
    write_whole(output, line.as_slice())
}

/// Writes the line of a message of edition 2 that was heard.
fn write_heard<T: Sink>(
    alloc: Global,
    place: &Place,
    arrival: &Arrival,
    output: &mut T,
) -> Result<(), Stop>
    requires whole { (profile : Profile) × (octets : List ℕ) × HeardUnder profile arrival.now octets
        × (verdict_under profile octets ≡ Accepted (length octets)) }
    ensures { (profile : Profile) (octets : List ℕ) → HeardUnder profile arrival.now octets
        → verdict_under profile octets ≡ Accepted (length octets)
        → WritesTo T.contents T.faults T.settled result output.old output.new
        (printed_lines.check_line place.now.message place.now.before 2 (length octets) (field_count octets)) }
{
    let total = arrival.octets();
    let fields = arrival.fields();
    let line = check_line(alloc, place.message, place.before, 2, total, fields)?;
    write_whole(output, line.as_slice())
}
