//! `dump decimals=`: as `dump`, with the values of points as decimals.

ghost use Rattle.std.specs.Prelude.{◌≡◌, ◌^◌, ◌<◌, ◌≤◌, ◌++◌, true, None, is_none, length, nat_abs, IfOk};
ghost use Rattle.grib2_message.specs.Fields.{field_count};
ghost use Rattle.grib_decimal.specs.Range.{first_too_large};
ghost use Rattle.grib_command.specs.Answering.{AnswersByOutput};
ghost use Rattle.grib_command.specs.Pending.{WritesTo, WritesToAllBut};
ghost use Rattle.grib_report.specs.Valuing as values;

use crate::fields::{FieldTexts, write_fields};
use crate::points::{ROOM, append_text, append_values};
use crate::references::ieee_reference;
use crate::{field_scaling, message_scaling1};
use grib_base::MOST_POINTS;
use grib_command::{Answered, Ending, Writer, printed, unreadable, write_whole};
use grib_decimal::DecimalScale;
use grib_dyadic::Dyadic;
use grib_io::{Sink, Stop};
use grib_packing::Column;
use grib_stream::{Cause, Place};
use grib_text::{list_line, list_line1, reference_line};
use grib1_sections::Message1;
use grib2_arrival::Arrival;
use grib2_message::{Message, ReadableMessage};
use std::alloc::{AllocError, Global};

/// The command `dump` with values of this many places.
#[derive(Clone, Copy, Debug)]
pub struct Valuing {
    pub places: u32,
    pub ghost places_stand: { places ≤ 18 },
}

impl Writer for Valuing {
    ghost use Rattle.std.specs.Prelude.{refl};
    ghost use Rattle.grib_report.specs.Valuing.{value_command, value_lawful};

    ghost definition = { λ valuing. value_command valuing.places };

    ghost lawful = { λ valuing. value_lawful valuing.places };

    ghost unshelved = { λ valuing. refl };

    fn first<T: Sink>(
        &self,
        alloc: Global,
        place: &Place,
        message: &Message1<'_>,
        output: &mut T,
    ) -> Answered {
        match first_cause(alloc, message, self.places) {
            Ok(None) => printed(write_first(alloc, place.message, message, self.places, output)),
            Ok(Some(cause)) => Answered::Kept(cause),
            Err(_) => Answered::Memory,
        }
    }

    fn second<T: Sink>(
        &self,
        alloc: Global,
        place: &Place,
        message: &Message<'_>,
        output: &mut T,
    ) -> Answered {
        match ReadableMessage::of(message) {
            Ok(message) => write_second(alloc, place, &message, self.places, output),
            Err(opaque) => unreadable(opaque),
        }
    }

    /// No message is heard.
    fn hears(&self) -> bool {
        false
    }

    fn heard<T: Sink>(
        &self,
        _alloc: Global,
        _place: &Place,
        _arrival: &Arrival,
        _output: &mut T,
    ) -> Answered {
        Answered::Memory
    }

    fn ending(&self) -> Ending {
        Ending::Silent
    }
}

/// The cause by which a message of edition 1 cannot be printed, if one of its values is too large
/// for a text.
fn first_cause(
    alloc: Global,
    message: &Message1<'_>,
    places: u32,
) -> Result<Option<Cause>, AllocError>
    requires { places ≤ 18 }
    ensures { IfOk result (λ cause. cause ≡ values.cause_1 places message.now) }
{
    if fits_first(message, places) {
        return Ok(None);
    }
    let column = message.column1(alloc)?;
    let reference = Dyadic::from_ibm(column.reference);
    Ok(range_cause(&column, &reference, places, 1))
}

/// The cause by which a message of edition 2 cannot be printed with values of this many places: its first value that is
/// too large for a text.
///
/// # Errors
///
/// There is no memory.
pub fn decimal_cause(
    alloc: Global,
    message: &ReadableMessage<'_>,
    places: u32,
) -> Result<Option<Cause>, AllocError>
    requires { places ≤ 18 }
    ensures { IfOk result (λ cause. cause ≡ values.cause_2 places message.now) }
{
    for index in 0..message.fields() {
        let cause = field_cause(alloc, message, places, index + 1)?;
        if cause.is_some() {
            return Ok(cause);
        }
    }
    Ok(None)
}

/// The cause by a field, counted from 1.
fn field_cause(
    alloc: Global,
    message: &ReadableMessage<'_>,
    places: u32,
    field: u32,
) -> Result<Option<Cause>, AllocError>
    requires places { places ≤ 18 }
    requires first { 1 ≤ field }
    requires last { field ≤ field_count message.now }
    ensures { IfOk result (λ cause. cause ≡ values.field_cause places message.now field) }
{
    if fits_field(message, places, field) {
        return Ok(None);
    }
    let column = message.column(alloc, field)?;
    let reference = ieee_reference(column.reference);
    Ok(range_cause(&column, &reference, places, field))
}

/// Whether no value of a message of edition 1 can be too large for a text, by its reference value and its scale
/// factors alone.
fn fits_first(message: &Message1<'_>, places: u32) -> bool
    requires { places ≤ 18 }
    ensures { result ≡ true → values.cause_1 places message.now ≡ None }
{
    let scaling = message_scaling1(message);
    let reference = Dyadic::from_ibm(scaling.reference);
    DecimalScale::of(&reference, scaling.e, scaling.d, places).holds_all()
}

/// Whether no value of a field of edition 2, counted from 1, can be too large for a text, by its reference value
/// and its scale factors alone.
fn fits_field(message: &ReadableMessage<'_>, places: u32, field: u32) -> bool
    requires places { places ≤ 18 }
    requires first { 1 ≤ field }
    requires last { field ≤ field_count message.now }
    ensures { result ≡ true → values.field_cause places message.now field ≡ None }
{
    let scaling = field_scaling(message, field);
    let reference = ieee_reference(scaling.reference);
    DecimalScale::of(&reference, scaling.e, scaling.d, places).holds_all()
}

/// The cause by the points of a field.
fn range_cause(column: &Column, reference: &Dyadic, places: u32, field: u32) -> Option<Cause>
    requires few { length column.now.points ≤ MOST_POINTS }
    requires mantissa { nat_abs reference.now.mantissa < 2 ^ 24 }
    requires places { places ≤ 18 }
    ensures { result ≡ values.range_cause places field reference.now column.now }
{
    let scale = DecimalScale::of(reference, column.e, column.d, places);
    let point = scale.first_too_large(column)?;
    Some(Cause::DecimalRange { field, point })
}

/// Writes what is printed of a message of edition 2 at this place whose values can be read, if they all have
/// texts.
fn write_second<T: Sink>(
    alloc: Global,
    place: &Place,
    message: &ReadableMessage<'_>,
    places: u32,
    output: &mut T,
) -> Answered
    requires { places ≤ 18 }
    ensures { AnswersByOutput T.contents T.faults T.settled result place.now.message
        (values.second_given places place.now message.now) output.old output.new }
{
    match decimal_cause(alloc, message, places) {
        Ok(None) => {
            let fields = ValuedFields {
                places,
                number: place.message,
                message,
            };
            printed(write_fields(&fields, alloc, output))
        }
        Ok(Some(cause)) => Answered::Kept(cause),
        Err(_) => Answered::Memory,
    }
}

/// The fields of the message with this number, as they are printed with values of this many places, which all
/// have texts.
#[derive(Drop)]
struct ValuedFields<'a> {
    places: u32,
    number: u64,
    message: &'a ReadableMessage<'a>,
    ghost places_stand: { places ≤ 18 },
    ghost fits: { is_none (values.cause_2 places message.now) ≡ true },
}

impl FieldTexts for ValuedFields<'_> {
    ghost use Rattle.grib_report.specs.Valuing.{value_text};

    ghost count = { λ fields. field_count fields.message.now };

    ghost text = { λ fields. value_text fields.places fields.message.now fields.number };

    fn fields(&self) -> u32 {
        self.message.fields()
    }

    fn append<T: Sink>(
        &self,
        alloc: Global,
        field: u32,
        lines: &mut Vec<u8>,
        output: &mut T,
    ) -> Result<(), Stop> {
        let column = self.message.column(alloc, field)?;
        let reference = ieee_reference(column.reference);
        let listed = list_line(alloc, self.message.message(), self.number, field)?;
        append_valued(
            alloc,
            listed.as_slice(),
            &reference,
            &column,
            self.places,
            lines,
            output,
        )
    }
}

/// Writes what is printed of the message of edition 1 with this number, whose values all have texts.
fn write_first<T: Sink>(
    alloc: Global,
    number: u64,
    message: &Message1<'_>,
    places: u32,
    output: &mut T,
) -> Result<(), Stop>
    requires places { places ≤ 18 }
    requires fits { values.cause_1 places message.now ≡ None }
    ensures { WritesTo T.contents T.faults T.settled result output.old output.new
        (values.value_text_1 places message.now number) }
{
    let column = message.column1(alloc)?;
    let reference = Dyadic::from_ibm(column.reference);
    let listed = list_line1(alloc, message, number)?;
    let mut lines = Vec::with_capacity(alloc, ROOM)?;
    append_valued(
        alloc,
        listed.as_slice(),
        &reference,
        &column,
        places,
        &mut lines,
        output,
    )?;
    write_whole(output, lines.as_slice())
}

/// Appends the list line of a field, the line on its reference value and its scale factors, and the line of
/// each of its points with its value to the buffer.
fn append_valued<T: Sink>(
    alloc: Global,
    listed: &[u8],
    reference: &Dyadic,
    column: &Column,
    places: u32,
    lines: &mut Vec<u8>,
    output: &mut T,
) -> Result<(), Stop>
    requires few { length column.now.points < 2 ^ 32 }
    requires mantissa { nat_abs reference.now.mantissa < 2 ^ 24 }
    requires places { places ≤ 18 }
    requires fits { first_too_large (values.scale_by places reference.now column.now) column.now.points ≡ None }
    ensures { WritesToAllBut T.contents T.faults T.settled result output.old output.new
        (lines.old.items ++ values.valued places listed.now reference.now column.now) lines.new.items }
{
    let scale = DecimalScale::of(reference, column.e, column.d, places);
    let numbers = reference_line(alloc, reference, column.e, column.d)?;
    append_text(lines, listed, output)?;
    append_text(lines, numbers.as_slice(), output)?;
    append_values(lines, column.points.as_slice(), &scale, output)
}
