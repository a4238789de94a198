//! `demote`: each field of a message of edition 2 as a message of edition 1.

ghost use Rattle.std.specs.Prelude.{◌≡◌, ◌≤◌, None, length, IfOk, MatchResult};
ghost use Rattle.grib2_message.specs.Fields.{field_count};
ghost use Rattle.grib_demote.specs.Demoted.{demoted, first_loss};
ghost use Rattle.grib_stream.specs.declared.place.Place.{Place as AtPlace};
ghost use Rattle.grib_command.specs.Answering.{AnswersByOutput};
ghost use Rattle.grib_command.specs.Pending.{WritesTo};
ghost use Rattle.grib_edit.specs.Unchanged.{answered_undemoted, IsKept};
ghost use Rattle.grib_edit.specs.Demoting.{field_cause, demoted_cause, demoted_fields, demoted_given};

use grib_command::{Answered, Ending, Writer, unreadable, write_counted, written};
use grib_demote::{DemoteFault, demote};
use grib_io::{Sink, Stop};
use grib_params::{Table, TableMatch};
use grib_stream::{Cause, Place};
use grib1_sections::Message1;
use grib2_arrival::Arrival;
use grib2_message::{Message, ReadableMessage};
use std::alloc::Global;

/// The command `demote`.
#[derive(Debug, Drop)]
pub struct Demoting<'a> {
    /// What the parameters of edition 1 are in edition 2.
    pub table: &'a Table,
    /// Which tables a record needs to have.
    pub matching: TableMatch,
    /// Whether octets for local use are preserved.
    pub keep_local: bool,
    /// Whether the shape of the earth is dropped where edition 1 has no place for it.
    pub any_earth: bool,
}

impl Writer for Demoting<'_> {
    ghost use Rattle.std.specs.Prelude.{refl};
    ghost use Rattle.grib_edit.specs.Demoting.{demote_command, demote_lawful};

    ghost definition = { λ demoting. demote_command demoting.matching demoting.keep_local demoting.any_earth demoting.table.now };

    ghost lawful = { λ demoting. demote_lawful demoting.matching demoting.keep_local demoting.any_earth demoting.table.now };

    ghost unshelved = { λ demoting. refl };

    fn first<T: Sink>(
        &self,
        _alloc: Global,
        _place: &Place,
        message: &Message1<'_>,
        output: &mut T,
    ) -> Answered {
        written(write_counted(output, message.octets()))
    }

    fn second<T: Sink>(
        &self,
        alloc: Global,
        _place: &Place,
        message: &Message<'_>,
        output: &mut T,
    ) -> Answered {
        match ReadableMessage::of(message) {
            Ok(message) => write_demoted(alloc, &message, self, output),
            Err(opaque) => unreadable(opaque),
        }
    }

    /// No message is judged incrementally.
    fn hears(&self) -> bool {
        false
    }

    fn heard<T: Sink>(
        &self,
        _alloc: Global,
        _place: &Place,
        _arrival: &Arrival,
        _output: &mut T,
    ) -> Answered {
        Answered::Memory
    }

    fn ending(&self) -> Ending {
        Ending::Written
    }
}

/// Writes the messages of edition 1 of the fields of a message whose values can be read, or leaves it
/// unchanged, wherever it stands.
fn write_demoted<T: Sink>(
    alloc: Global,
    message: &ReadableMessage<'_>,
    demoting: &Demoting<'_>,
    output: &mut T,
) -> Answered
    ensures { (place : AtPlace) → AnswersByOutput T.contents T.faults T.settled result place.message
        (demoted_given demoting.now.matching demoting.now.keep_local demoting.now.any_earth demoting.now.table.now place message.now)
        output.old output.new }
{
    match last_demoted(alloc, message, demoting) {
        Ok(last) => written(write_fields(alloc, message, demoting, last.as_slice(), output)),
        Err(answered) => answered,
    }
}

/// The message of edition 1 of the last field, where each field can be demoted, or what comes of the message. One
/// field is held at a time.
fn last_demoted(
    alloc: Global,
    message: &ReadableMessage<'_>,
    demoting: &Demoting<'_>,
) -> Result<Vec<u8>, Answered>
    ensures { MatchResult result
        (λ octets. (demoted_cause demoting.now.table.now demoting.now.matching demoting.now.keep_local demoting.now.any_earth message.now ≡ None)
        × (octets.items ≡ demoted demoting.now.table.now demoting.now.matching demoting.now.keep_local message.now (field_count message.now)))
        (λ answered. IsKept (demoted_cause demoting.now.table.now demoting.now.matching demoting.now.keep_local demoting.now.any_earth message.now) answered) }
{
    let count = message.fields();
    for index in 0..count - 1 {
        demote_field(alloc, message, index + 1, demoting)?;
    }
    demote_field(alloc, message, count, demoting)
}

/// Writes the messages of edition 1 of all fields, one after another, of which this is the last one, and answers how
/// many octets they have.
fn write_fields<T: Sink>(
    alloc: Global,
    message: &ReadableMessage<'_>,
    demoting: &Demoting<'_>,
    last: &[u8],
    output: &mut T,
) -> Result<u64, Stop>
    requires { last.now ≡ demoted demoting.now.table.now demoting.now.matching demoting.now.keep_local message.now (field_count message.now) }
    ensures writes { WritesTo T.contents T.faults T.settled result output.old output.new
        (demoted_fields demoting.now.table.now demoting.now.matching demoting.now.keep_local message.now) }
    ensures count { IfOk result (λ written. written
        ≡ length (demoted_fields demoting.now.table.now demoting.now.matching demoting.now.keep_local message.now)) }
{
    let mut written = 0u64;
    let count = message.fields();
    for index in 0..count - 1 {
        written += write_field(alloc, message, index + 1, demoting, output)?;
    }
    Ok(written + write_counted(output, last)?)
}

/// Writes the message of edition 1 of a field that can be demoted, and answers how many octets it has.
fn write_field<T: Sink>(
    alloc: Global,
    message: &ReadableMessage<'_>,
    field: u32,
    demoting: &Demoting<'_>,
    output: &mut T,
) -> Result<u64, Stop>
    requires first { 1 ≤ field }
    requires last { field ≤ field_count message.now }
    ensures writes { WritesTo T.contents T.faults T.settled result output.old output.new
        (demoted demoting.now.table.now demoting.now.matching demoting.now.keep_local message.now field) }
    ensures count { IfOk result (λ written. written
        ≡ length (demoted demoting.now.table.now demoting.now.matching demoting.now.keep_local message.now field)) }
    ensures few { IfOk result (λ written. written ≤ 16777215) }
{
    match demote_field(alloc, message, field, demoting) {
        Ok(octets) => write_counted(output, octets.as_slice()),
        Err(_) => Err(Stop::Memory),
    }
}

/// The message of edition 1 of a field, or what comes of the message.
fn demote_field(
    alloc: Global,
    message: &ReadableMessage<'_>,
    field: u32,
    demoting: &Demoting<'_>,
) -> Result<Vec<u8>, Answered>
    requires first { 1 ≤ field }
    requires last { field ≤ field_count message.now }
    ensures { MatchResult result
        (λ octets. (field_cause demoting.now.table.now demoting.now.matching demoting.now.keep_local demoting.now.any_earth message.now field ≡ None)
        × (octets.items ≡ demoted demoting.now.table.now demoting.now.matching demoting.now.keep_local message.now field))
        (λ answered. IsKept (field_cause demoting.now.table.now demoting.now.matching demoting.now.keep_local demoting.now.any_earth message.now field) answered) }
{
    match demote(
        alloc,
        message,
        field,
        demoting.table,
        demoting.matching,
        demoting.keep_local,
        demoting.any_earth,
    ) {
        Ok(octets) => Ok(octets),
        Err(fault) => Err(kept_by(field, fault)),
    }
}

/// What comes of a message of which this field is not demoted.
fn kept_by(field: u32, fault: DemoteFault) -> Answered
    ensures { result ≡ answered_undemoted field fault }
{
    match fault {
        DemoteFault::Lost(loss) => Answered::Kept(Cause::Demoted { field, loss }),
        DemoteFault::Memory => Answered::Memory,
    }
}
