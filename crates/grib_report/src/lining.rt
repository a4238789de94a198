//! `list` and `keys` with columns and names: a line for each field.

use crate::points::append_text;
use crate::printing::Printer;
use grib_command::write_whole;
use grib_io::{Sink, Stop};
use grib_stream::Place;
use grib_text::Lining;
use grib1_sections::Message1;
use grib2_arrival::Arrival;
use grib2_message::Message;
use std::alloc::Global;

impl Printer for Lining<'_> {
    ghost use Rattle.std.specs.Prelude.{false, option_copied};
    ghost use Rattle.grib_text.specs.Columns.{entries_of, line1_of, line_of};

    ghost first_text = { λ lining place message. line1_of lining.form lining.columns.now place.message place.before message };

    ghost field_text = { λ lining place message.
        line_of lining.form lining.columns.now (entries_of (option_copied lining.names)) place.message place.before message };

    ghost hearing = { λ lining. false };

    fn write_first<T: Sink>(
        &self,
        alloc: Global,
        place: &Place,
        message: &Message1<'_>,
        output: &mut T,
    ) -> Result<(), Stop> {
        let line = self.line1(alloc, place.message, place.before, message)?;
        write_whole(output, line.as_slice())
    }

    fn append_field<T: Sink>(
        &self,
        alloc: Global,
        place: &Place,
        message: &Message<'_>,
        field: u32,
        lines: &mut Vec<u8>,
        output: &mut T,
    ) -> Result<(), Stop> {
        let line = self.line(alloc, place.message, place.before, message, field)?;
        append_text(lines, line.as_slice(), output)
    }

    /// No message is heard.
    fn hears(&self) -> bool {
        false
    }

    fn write_heard<T: Sink>(
        &self,
        _alloc: Global,
        _place: &Place,
        _arrival: &Arrival,
        _output: &mut T,
    ) -> Result<(), Stop> {
        Err(Stop::Memory)
    }
}
