//! `stats`: for each field a line with the summary of its points, and its reference line.

ghost use Rattle.std.specs.Prelude.{◌≡◌, ◌++◌, IfOk};
ghost use Rattle.grib_bits.specs.Bits.{bits_of, signed};
ghost use Rattle.grib_text.specs.Lines.{reference_line as reference_text};
ghost use Rattle.grib_text.specs.Stats.{stats_line as sums_text};

use crate::points::append_text;
use crate::references::ieee_reference;
use crate::value_printing::ValuePrinter;
use crate::{Scaling, field_scaling, field_sums, message_scaling1, message_sums1};
use grib_command::write_whole;
use grib_decimal::Summary;
use grib_dyadic::Dyadic;
use grib_io::{Sink, Stop};
use grib_text::{reference_line, stats_line};
use grib1_sections::Message1;
use grib2_message::ReadableMessage;
use std::alloc::{AllocError, Global};

/// Prints the summary of the points of a field, and its reference line.
#[derive(Clone, Copy, Debug)]
pub struct Summing;

impl ValuePrinter for Summing {
    ghost use Rattle.grib_report.specs.Summing.{stats_text, stats_text_1};

    ghost first_text = { λ summing. stats_text_1 };

    ghost field_text = { λ summing. stats_text };

    fn write_first<T: Sink>(
        &self,
        alloc: Global,
        number: u64,
        message: &Message1<'_>,
        output: &mut T,
    ) -> Result<(), Stop> {
        let summary = message_sums1(alloc, message)?;
        let scaling = message_scaling1(message);
        let reference = Dyadic::from_ibm(scaling.reference);
        let text = sums_of(alloc, number, 1, &summary, &reference, scaling)?;
        write_whole(output, text.as_slice())
    }

    fn append_field<T: Sink>(
        &self,
        alloc: Global,
        number: u64,
        message: &ReadableMessage<'_>,
        field: u32,
        lines: &mut Vec<u8>,
        output: &mut T,
    ) -> Result<(), Stop> {
        let summary = field_sums(alloc, message, field)?;
        let scaling = field_scaling(message, field);
        let reference = ieee_reference(scaling.reference);
        let text = sums_of(alloc, number, field, &summary, &reference, scaling)?;
        append_text(lines, text.as_slice(), output)
    }
}

/// The line with the summary of the points of a field, and the line on its reference value and its
/// scale factors.
fn sums_of(
    alloc: Global,
    number: u64,
    field: u32,
    summary: &Summary,
    reference: &Dyadic,
    scaling: Scaling,
) -> Result<Vec<u8>, AllocError>
    ensures { IfOk result (λ text. text.items ≡ sums_text number field summary.now
        ++ reference_text reference.now (signed (bits_of 16 scaling.e)) (signed (bits_of 16 scaling.d))) }
{
    let mut text = stats_line(alloc, number, field, summary)?;
    let numbers = reference_line(alloc, reference, scaling.e, scaling.d)?;
    text.extend_from_slice(numbers.as_slice())?;
    Ok(text)
}
