//! What is printed of the fields of a message of edition 2.

ghost use Rattle.std.specs.Prelude.{◌≡◌, ◌≤◌, ◌++◌, ℕ, List};
ghost use Rattle.grib_command.specs.Command.{texts_from};
ghost use Rattle.grib_command.specs.Pending.{WritesTo, WritesToAllBut};

use crate::points::ROOM;
use grib_command::write_whole;
use grib_io::{Sink, Stop};
use std::alloc::Global;

/// The fields of a message, with a text for each.
pub trait FieldTexts {
    /// The number of fields.
    ghost count: { Self → ℕ };

    /// The text of a field, counted from 1.
    ghost text: { Self → ℕ → List ℕ };

    /// The number of fields.
    fn fields(&self) -> u32
        ensures { result ≡ count self.now };

    /// Appends the text of a field to the buffer, which is passed on first where it is full.
    fn append<T: Sink>(
        &self,
        alloc: Global,
        field: u32,
        lines: &mut Vec<u8>,
        output: &mut T,
    ) -> Result<(), Stop>
        requires first { 1 ≤ field }
        requires last { field ≤ count self.now }
        ensures { WritesToAllBut T.contents T.faults T.settled result output.old output.new
            (lines.old.items ++ text self.now field) lines.new.items };
}

/// Writes the text of each field through one buffer.
pub fn write_fields<F: FieldTexts, T: Sink>(
    texts: &F,
    alloc: Global,
    output: &mut T,
) -> Result<(), Stop>
    ensures { WritesTo T.contents T.faults T.settled result output.old output.new
        (texts_from (F.text texts.now) (F.count texts.now) 1) }
{
    let mut lines = Vec::with_capacity(alloc, ROOM)?;
    append_fields(texts, alloc, &mut lines, output)?;
    write_whole(output, lines.as_slice())
}

/// Appends the text of each field to the buffer.
fn append_fields<F: FieldTexts, T: Sink>(
    texts: &F,
    alloc: Global,
    lines: &mut Vec<u8>,
    output: &mut T,
) -> Result<(), Stop>
    ensures { WritesToAllBut T.contents T.faults T.settled result output.old output.new
        (lines.old.items ++ texts_from (F.text texts.now) (F.count texts.now) 1) lines.new.items }
{
    let count = texts.fields();
    for index in 0..count {
        texts.append(alloc, index + 1, lines, output)?;
    }
    Ok(())
}
