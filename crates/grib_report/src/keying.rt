//! `keys`: for each field a line with each key that the field has.

use crate::points::append_text;
use crate::printing::Printer;
use grib_command::write_whole;
use grib_io::{Sink, Stop};
use grib_stream::Place;
use grib_text::{keys_line, keys_line1};
use grib1_sections::Message1;
use grib2_arrival::Arrival;
use grib2_message::Message;
use std::alloc::Global;

/// Prints the line with the keys of a field.
#[derive(Clone, Copy, Debug)]
pub struct Keying;

impl Printer for Keying {
    ghost use Rattle.std.specs.Prelude.{false};
    ghost use Rattle.grib_text.specs.KeyLines.{keys_line, keys_line1};

    ghost first_text = { λ keying place message. keys_line1 message place.message };

    ghost field_text = { λ keying place message. keys_line message place.message };

    ghost hearing = { λ keying. false };

    fn write_first<T: Sink>(
        &self,
        alloc: Global,
        place: &Place,
        message: &Message1<'_>,
        output: &mut T,
    ) -> Result<(), Stop> {
        let line = keys_line1(alloc, message, place.message)?;
        write_whole(output, line.as_slice())
    }

    fn append_field<T: Sink>(
        &self,
        alloc: Global,
        place: &Place,
        message: &Message<'_>,
        field: u32,
        lines: &mut Vec<u8>,
        output: &mut T,
    ) -> Result<(), Stop> {
        let line = keys_line(alloc, message, place.message, field)?;
        append_text(lines, line.as_slice(), output)
    }

    /// No message is heard.
    fn hears(&self) -> bool {
        false
    }

    fn write_heard<T: Sink>(
        &self,
        _alloc: Global,
        _place: &Place,
        _arrival: &Arrival,
        _output: &mut T,
    ) -> Result<(), Stop> {
        Err(Stop::Memory)
    }
}
