//! `values`: for each field an array of its values.

ghost use Rattle.std.specs.Prelude.{◌≡◌, ◌≤◌};
ghost use Rattle.grib2_message.specs.Fields.{field_count, part_octets};
ghost use Rattle.grib1_sections.specs.Acceptance.{grid};
ghost use Rattle.grib_values.specs.Shapes as shapes;

use crate::appending::append_array;
use crate::shapes::{first_shape, second_shape};
use grib_arrays::Shape;
use grib_command::write_whole;
use grib_dyadic::Dyadic;
use grib_io::{Sink, Stop};
use grib_nearest::Format;
use grib_report::{ROOM, ValuePrinter, ieee_reference};
use grib1_sections::Message1;
use grib2_message::ReadableMessage;
use std::alloc::Global;

/// Prints an array of the values of a field, each the number of the format that is nearest to the exact value.
#[derive(Clone, Copy, Debug)]
pub struct Arraying {
    pub format: Format,
}

impl ValuePrinter for Arraying {
    ghost use Rattle.grib_values.specs.Arrays.{array_1, array_2};

    ghost first_text = { λ arraying message number. array_1 arraying.format message };

    ghost field_text = { λ arraying message number field. array_2 arraying.format message field };

    fn write_first<T: Sink>(
        &self,
        alloc: Global,
        _number: u64,
        message: &Message1<'_>,
        output: &mut T,
    ) -> Result<(), Stop> {
        let column = message.column1(alloc)?;
        let shape = shape_of_message(message);
        let reference = Dyadic::from_ibm(column.reference);
        let mut octets = Vec::with_capacity(alloc, ROOM)?;
        append_array(
            alloc,
            self.format,
            shape,
            &reference,
            &column,
            &mut octets,
            output,
        )?;
        write_whole(output, octets.as_slice())
    }

    fn append_field<T: Sink>(
        &self,
        alloc: Global,
        _number: u64,
        message: &ReadableMessage<'_>,
        field: u32,
        lines: &mut Vec<u8>,
        output: &mut T,
    ) -> Result<(), Stop> {
        let column = message.column(alloc, field)?;
        let shape = shape_of_field(message, field);
        let reference = ieee_reference(column.reference);
        append_array(
            alloc,
            self.format,
            shape,
            &reference,
            &column,
            lines,
            output,
        )
    }
}

/// The shape of the array of a message of edition 1.
fn shape_of_message(message: &Message1<'_>) -> Shape
    ensures { result ≡ shapes.shape_1 (grid message.now) }
{
    let Some(section2) = message.section(2) else {
        unreachable!();
    };
    first_shape(section2, message.points())
}

/// The shape of the array of a field of edition 2, counted from 1.
fn shape_of_field(message: &ReadableMessage<'_>, field: u32) -> Shape
    requires first { 1 ≤ field }
    requires last { field ≤ field_count message.now }
    ensures { result ≡ shapes.shape_2 (part_octets message.now field 3) }
{
    let Some(section3) = message.part(field, 3) else {
        unreachable!();
    };
    second_shape(section3.octets)
}
