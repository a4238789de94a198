//! What is printed of a field.

ghost use Rattle.std.specs.Prelude.{◌≡◌, ℕ, ◌*◌, ◌^◌, ◌<◌, ◌≤◌, ◌++◌, None, length};
ghost use Rattle.grib_bits.specs.Octets.{octets};
ghost use Rattle.grib_rescan.specs.Sections.{HasPoints};
ghost use Rattle.grib_command.specs.Pending.{WritesToAllBut};
ghost use Rattle.grib_placed.specs.Lines as definitions;
ghost use Rattle.grib_placed.specs.Texts.{text_in, HasTexts};

use crate::form::PointForm;
use crate::lines::append_placed;
use crate::places::PlaceTexts;
use grib_dyadic::Dyadic;
use grib_io::{Sink, Stop};
use grib_packing::Column;
use grib_report::append_text;
use grib_text::reference_line;
use std::alloc::Global;

/// The head of what is printed of a field: its list line, its Section 3, its reference value and its column.
#[derive(Clone, Copy, Debug)]
pub(crate) struct PrintedField<'a> {
    pub(crate) listed: &'a [u8],
    pub(crate) section3: &'a [u8],
    pub(crate) reference: &'a Dyadic,
    pub(crate) column: &'a Column,
}

/// Appends what is printed of a field with the places of its points to the buffer, which is passed on to the sink whenever it is
/// full. What is left in the buffer is still to be written.
pub(crate) fn append_field_placed<T: Sink>(
    alloc: Global,
    field: &PrintedField<'_>,
    form: &PointForm,
    lines: &mut Vec<u8>,
    output: &mut T,
) -> Result<(), Stop>
    requires grid { HasPoints field.now.section3.now }
    requires points { length field.now.column.now.points ≡ octets field.now.section3.now 31 34 * octets field.now.section3.now 35 38 }
    requires few { length field.now.column.now.points < 2 ^ 32 }
    requires texts { HasTexts form.now field.now.column.now.points }
    ensures { WritesToAllBut T.contents T.faults T.settled result output.old output.new
        (lines.old.items ++ definitions.placed field.now.section3.now (text_in form.now) field.now.listed.now field.now.reference.now
        field.now.column.now) lines.new.items }
{
    let column = field.column;
    let places = PlaceTexts::of(alloc, field.section3)?;
    let numbers = reference_line(alloc, field.reference, column.e, column.d)?;
    append_text(lines, field.listed, output)?;
    append_text(lines, numbers.as_slice(), output)?;
    append_placed(&places, form, column.points.as_slice(), lines, output)
}
