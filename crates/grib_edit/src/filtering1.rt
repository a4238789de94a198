//! `filter` by keys of edition 1: the messages of edition 1 that fulfil conditions.

ghost use Rattle.std.specs.Prelude.{◌≡◌, length, IfOk};
ghost use Rattle.grib_command.specs.Pending.{WritesTo};
ghost use Rattle.grib_edit.specs.Filtering1.{filtered1};

use grib_command::{Answered, Ending, Writer, write_counted, written};
use grib_io::{Sink, Stop};
use grib_stream::Place;
use grib1_sections::Message1;
use grib1_select::{Wanted1, matches1};
use grib2_arrival::Arrival;
use grib2_message::Message;
use std::alloc::Global;

/// The command `filter` by keys of edition 1.
#[derive(Debug, Drop)]
pub struct Filtering1<'a> {
    /// The keys with what is asked of their values.
    pub conditions: &'a [Wanted1],
}

impl Writer for Filtering1<'_> {
    ghost use Rattle.std.specs.Prelude.{refl};
    ghost use Rattle.grib_edit.specs.Filtering1.{filter1_command, filter1_lawful};

    ghost definition = { λ filtering. filter1_command filtering.conditions.now };

    ghost lawful = { λ filtering. filter1_lawful filtering.conditions.now };

    ghost unshelved = { λ filtering. refl };

    fn first<T: Sink>(
        &self,
        _alloc: Global,
        _place: &Place,
        message: &Message1<'_>,
        output: &mut T,
    ) -> Answered {
        written(write_if_matching(self.conditions, message, output))
    }

    /// Nothing of a message of edition 2 is written.
    fn second<T: Sink>(
        &self,
        _alloc: Global,
        _place: &Place,
        _message: &Message<'_>,
        _output: &mut T,
    ) -> Answered {
        Answered::Whole(0)
    }

    /// No message is judged incrementally.
    fn hears(&self) -> bool {
        false
    }

    fn heard<T: Sink>(
        &self,
        _alloc: Global,
        _place: &Place,
        _arrival: &Arrival,
        _output: &mut T,
    ) -> Answered {
        Answered::Memory
    }

    fn ending(&self) -> Ending {
        Ending::Written
    }
}

/// Writes a message where it fulfils the conditions. It answers how many octets it wrote.
fn write_if_matching<T: Sink>(
    conditions: &[Wanted1],
    message: &Message1<'_>,
    output: &mut T,
) -> Result<u64, Stop>
    ensures writes { WritesTo T.contents T.faults T.settled result output.old output.new
        (filtered1 conditions.now message.now) }
    ensures count { IfOk result (λ written. written ≡ length (filtered1 conditions.now message.now)) }
{
    if !matches1(message, conditions) {
        return Ok(0);
    }
    write_counted(output, message.octets())
}
