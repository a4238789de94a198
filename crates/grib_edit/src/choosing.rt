//! The fields of a message that are chosen.

ghost use Rattle.std.specs.Prelude.{◌≡◌, ℕ, ◌≤◌, Bool, List, length, IfOk};
ghost use Rattle.grib2_message.specs.Fields.{field_count};
ghost use Rattle.grib2_message.specs.Message.{IsAnyMessage};
ghost use Rattle.grib_edit.specs.Fronts.{IsFront};
ghost use Rattle.grib_command.specs.Pending.{WritesTo};
ghost use Rattle.grib_command.specs.Command.{texts_from};
ghost use Rattle.grib_edit.specs.Choosing.{single_chosen, chosen_of};

use grib_base::MOST_OCTETS;
use grib_command::write_counted;
use grib_io::{Sink, Stop};
use grib_select::single;
use grib2_message::Message;
use std::alloc::Global;

/// Chooses fields.
pub trait Chooser {
    /// Whether a field of a message is chosen.
    ghost chosen: { Self → List ℕ → ℕ → Bool };

    /// Whether a field, counted from 1, is chosen. It takes no memory.
    fn chooses(&self, message: &Message<'_>, field: u32) -> bool
        requires first { 1 ≤ field }
        requires last { field ≤ field_count message.now }
        ensures { result ≡ chosen self.now message.now field };
}

/// Writes a message where each of its fields is chosen, and else each field that is as a message of its own. It answers
/// how many octets it wrote. Each field is looked at once.
pub(crate) fn write_chosen<C: Chooser, T: Sink>(
    alloc: Global,
    chooser: &C,
    message: &Message<'_>,
    output: &mut T,
) -> Result<u64, Stop>
    ensures writes { WritesTo T.contents T.faults T.settled result output.old output.new
        (chosen_of (C.chosen chooser.now message.now) message.now) }
    ensures count { IfOk result (λ written. written ≡ length (chosen_of (C.chosen chooser.now message.now) message.now)) }
{
    let octets = message.octets();
    let front = chosen_front(chooser, message);
    if front < message.fields() {
        return write_each_chosen(alloc, chooser, message, front, output);
    }
    write_counted(output, octets)
}

/// How many fields are chosen before the first that is not.
fn chosen_front<C: Chooser>(chooser: &C, message: &Message<'_>) -> u32
    ensures { IsFront (C.chosen chooser.now message.now) message.now result }
{
    let count = message.fields();
    for index in 0..count {
        if !chooser.chooses(message, index + 1) {
            return index;
        }
    }
    count
}

/// Writes each field that is chosen, as are this many first ones and not the next. One field is held at a time.
fn write_each_chosen<C: Chooser, T: Sink>(
    alloc: Global,
    chooser: &C,
    message: &Message<'_>,
    front: u32,
    output: &mut T,
) -> Result<u64, Stop>
    requires message { IsAnyMessage message.now }
    requires front { IsFront (C.chosen chooser.now message.now) message.now front }
    ensures writes { WritesTo T.contents T.faults T.settled result output.old output.new
        (texts_from (single_chosen (C.chosen chooser.now message.now) message.now) (field_count message.now) 1) }
    ensures count { IfOk result (λ written. written
        ≡ length (texts_from (single_chosen (C.chosen chooser.now message.now) message.now) (field_count message.now) 1)) }
{
    let mut written = 0u64;
    let count = message.fields();
    for index in 0..count {
        written += write_if_chosen(alloc, chooser, message, front, index + 1, output)?;
    }
    Ok(written)
}

/// Writes a field as a message of its own where it is chosen.
fn write_if_chosen<C: Chooser, T: Sink>(
    alloc: Global,
    chooser: &C,
    message: &Message<'_>,
    front: u32,
    field: u32,
    output: &mut T,
) -> Result<u64, Stop>
    requires message { IsAnyMessage message.now }
    requires front { IsFront (C.chosen chooser.now message.now) message.now front }
    requires first { 1 ≤ field }
    requires last { field ≤ field_count message.now }
    ensures writes { WritesTo T.contents T.faults T.settled result output.old output.new
        (single_chosen (C.chosen chooser.now message.now) message.now field) }
    ensures count { IfOk result (λ written. written
        ≡ length (single_chosen (C.chosen chooser.now message.now) message.now field)) }
    ensures few { IfOk result (λ written. written ≤ MOST_OCTETS) }
{
    if !is_chosen(chooser, message, front, field) {
        return Ok(0);
    }
    let octets = single(alloc, message, field)?;
    write_counted(output, octets.as_slice())
}

/// Whether a field is chosen, as are this many first ones and not the next.
fn is_chosen<C: Chooser>(chooser: &C, message: &Message<'_>, front: u32, field: u32) -> bool
    requires front { IsFront (C.chosen chooser.now message.now) message.now front }
    requires first { 1 ≤ field }
    requires last { field ≤ field_count message.now }
    ensures { result ≡ C.chosen chooser.now message.now field }
{
    field <= front || (field - 1 > front && chooser.chooses(message, field))
}
