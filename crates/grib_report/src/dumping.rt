//! `dump`: for each field its list line, its reference line, and a line for each of its points.

ghost use Rattle.std.specs.Prelude.{◌^◌, ◌<◌, ◌++◌, length};
ghost use Rattle.grib_report.specs.Dumping as dumps;
ghost use Rattle.grib_command.specs.Pending.{WritesToAllBut};

use crate::points::{ROOM, append_points, append_text};
use crate::references::ieee_reference;
use crate::value_printing::ValuePrinter;
use grib_command::write_whole;
use grib_dyadic::Dyadic;
use grib_io::{Sink, Stop};
use grib_packing::Column;
use grib_text::{list_line, list_line1, reference_line};
use grib1_sections::Message1;
use grib2_message::ReadableMessage;
use std::alloc::Global;

/// Prints the list line, the reference line and the points of a field.
#[derive(Clone, Copy, Debug)]
pub struct Dumping;

impl ValuePrinter for Dumping {
    ghost use Rattle.grib_report.specs.Dumping.{dump_text, dump_text_1};

    ghost first_text = { λ dumping. dump_text_1 };

    ghost field_text = { λ dumping. dump_text };

    fn write_first<T: Sink>(
        &self,
        alloc: Global,
        number: u64,
        message: &Message1<'_>,
        output: &mut T,
    ) -> Result<(), Stop> {
        let column = message.column1(alloc)?;
        let reference = Dyadic::from_ibm(column.reference);
        let listed = list_line1(alloc, message, number)?;
        let mut lines = Vec::with_capacity(alloc, ROOM)?;
        append_dump(
            alloc,
            listed.as_slice(),
            &reference,
            &column,
            &mut lines,
            output,
        )?;
        write_whole(output, lines.as_slice())
    }

    fn append_field<T: Sink>(
        &self,
        alloc: Global,
        number: u64,
        message: &ReadableMessage<'_>,
        field: u32,
        lines: &mut Vec<u8>,
        output: &mut T,
    ) -> Result<(), Stop> {
        let column = message.column(alloc, field)?;
        let reference = ieee_reference(column.reference);
        let listed = list_line(alloc, message.message(), number, field)?;
        append_dump(alloc, listed.as_slice(), &reference, &column, lines, output)
    }
}

/// Appends the list line of a field, the line on its reference value and its scale factors, and the line of
/// each of its points to the buffer.
fn append_dump<T: Sink>(
    alloc: Global,
    listed: &[u8],
    reference: &Dyadic,
    column: &Column,
    lines: &mut Vec<u8>,
    output: &mut T,
) -> Result<(), Stop>
    requires few { length column.now.points < 2 ^ 32 }
    ensures { WritesToAllBut T.contents T.faults T.settled result output.old output.new
        (lines.old.items ++ dumps.dumped listed.now reference.now column.now) lines.new.items }
{
    let numbers = reference_line(alloc, reference, column.e, column.d)?;
    append_text(lines, listed, output)?;
    append_text(lines, numbers.as_slice(), output)?;
    append_points(lines, column.points.as_slice(), output)
}
