//! `compare`: for each field of the input that has a counterpart in a file, a line.

ghost use Rattle.std.specs.Prelude.{◌≡◌, ◌≤◌, None, Some, IfSome, IsTrue, MatchOption, MatchResult, slice_get};
ghost use Rattle.grib_command.specs.Answering.{AnswersByOutput};
ghost use Rattle.grib_command.specs.Judging.{fields_of};
ghost use Rattle.grib_dispatch.specs.Reading.{held_octets};
ghost use Rattle.grib_compare.specs.Command as commands;
ghost use Rattle.grib_compare.specs.Fields.{compared};
ghost use Rattle.grib_compare.specs.Seen.{readable_octets, readable_field, IsClear, IsOfField, StopsBy, AreLines};

use crate::comparison::Comparison;
use crate::file_message::FileMessage;
use crate::lines::Lines;
use crate::readable::Readable;
use crate::stop::CompareStop;
use grib_command::{Answered, Ending, Writer, unreadable, written};
use grib_file::{FileField, GribFile};
use grib_io::Sink;
use grib_stream::{Cause, Place};
use grib1_sections::Message1;
use grib2_arrival::Arrival;
use grib2_message::{Message, ReadableMessage};
use std::alloc::Global;

/// The command `compare`: each field of the input beside the field of a file that has its place. Of a message whose values
/// or whose counterparts' values cannot be read nothing is written.
#[derive(Debug, Drop)]
pub struct Comparing<'a> {
    /// The file.
    pub file: &'a GribFile,
    /// Whether Sections 1 to 4 have to be the same octets too.
    pub sections: bool,
    /// Whether fields that are the same have no line.
    pub quiet: bool,
}

impl Writer for Comparing<'_> {
    ghost use Rattle.std.specs.Prelude.{refl};
    ghost use Rattle.grib_compare.specs.Command.{compare_command};
    ghost use Rattle.grib_compare.specs.Lawful.{compare_lawful};

    ghost definition = { λ comparing. compare_command comparing.sections comparing.quiet comparing.file.now.fields };

    ghost lawful = { λ comparing. compare_lawful comparing.sections comparing.quiet comparing.file.now.fields };

    ghost unshelved = { λ comparing. refl };

    fn first<T: Sink>(
        &self,
        alloc: Global,
        place: &Place,
        message: &Message1<'_>,
        output: &mut T,
    ) -> Answered {
        message.octets();
        self.answer(alloc, place, &Readable::One(message), output)
    }

    fn second<T: Sink>(
        &self,
        alloc: Global,
        place: &Place,
        message: &Message<'_>,
        output: &mut T,
    ) -> Answered {
        message.octets();
        match ReadableMessage::of(message) {
            Ok(message) => self.answer(alloc, place, &Readable::Two(message), output),
            Err(opaque) => unreadable(opaque),
        }
    }

    /// No message is heard.
    fn hears(&self) -> bool {
        false
    }

    fn heard<T: Sink>(
        &self,
        _alloc: Global,
        _place: &Place,
        _arrival: &Arrival,
        _output: &mut T,
    ) -> Answered {
        Answered::Memory
    }

    fn ending(&self) -> Ending {
        Ending::Compared {
            fields: self.file.count(),
        }
    }
}

impl Comparing<'_> {
    /// Writes the lines of the fields of a message at this place, if the values of all counterparts can be read.
    fn answer<T: Sink>(
        &self,
        alloc: Global,
        place: &Place,
        message: &Readable<'_>,
        output: &mut T,
    ) -> Answered
        requires { IsClear (readable_octets message.now) }
        ensures { AnswersByOutput T.contents T.faults T.settled result place.now.message
            (commands.beside self.now.sections self.now.quiet self.now.file.now.fields place.now (readable_octets message.now))
            output.old output.new }
    {
        match self.lines(alloc, place, message) {
            Ok(lines) => written(lines.write(output)),
            Err(CompareStop::Kept(cause)) => Answered::Kept(cause),
            Err(CompareStop::Memory) => Answered::Memory,
        }
    }

    /// The lines of the fields of a message at this place.
    ///
    /// # Errors
    ///
    /// The values of a counterpart cannot be read, or there is no memory.
    fn lines(
        &self,
        alloc: Global,
        place: &Place,
        message: &Readable<'_>,
    ) -> Result<Lines, CompareStop>
        requires { IsClear (readable_octets message.now) }
        ensures { MatchResult result
            (AreLines self.now.sections self.now.quiet self.now.file.now.fields place.now (readable_octets message.now))
            (StopsBy (commands.counterpart_cause self.now.file.now.fields place.now (readable_octets message.now))) }
    {
        let mut lines = Lines::new(alloc);
        let mut last = None;
        for index in 0..message.fields() {
            let field = index + 1;
            let comparison = self.compare(alloc, place, message, field, &mut last)?;
            lines.append(alloc, self.quiet, place.message, field, comparison)?;
        }
        Ok(lines)
    }

    /// What is said of a field, counted from 1, of a message at this place, if it has a counterpart. The message of the
    /// counterpart is read, unless it was read `last`.
    ///
    /// # Errors
    ///
    /// The values of the counterpart cannot be read, or there is no memory.
    fn compare<'f>(
        &'f self,
        alloc: Global,
        place: &Place,
        message: &Readable<'_>,
        field: u32,
        last: &mut Option<FileMessage<'f>>,
    ) -> Result<Option<Comparison>, CompareStop>
        requires first { 1 ≤ field }
        requires last { field ≤ fields_of (readable_octets message.now) }
        requires clear { IsClear (readable_octets message.now) }
        requires stands { IfSome last.old (IsOfField self.now.file.now.fields (readable_octets message.now)) }
        ensures stands { IfSome last.new (IsOfField self.now.file.now.fields (readable_octets message.now)) }
        ensures compared { let other = commands.counterpart self.now.file.now.fields place.now field in MatchResult result
            (λ comparison. (commands.on_counterpart other field ≡ None)
            × (comparison ≡ commands.field_compared self.now.sections self.now.file.now.fields place.now (readable_octets message.now) field))
            (StopsBy (commands.on_counterpart other field)) }
    {
        let Some(index) = self.counterpart(place, field) else {
            return Ok(None);
        };
        let Some(other) = self.file.field(index) else {
            return Ok(None);
        };
        let octets = message.octets();
        let read = FileMessage::of(alloc, self.file, index, &other, octets, last.take())?;
        let comparison = compare_with(alloc, message, field, &read, &other, self.sections)?;
        *last = Some(read);
        Ok(Some(comparison))
    }

    /// The index of the field of the file beside a field, counted from 1, of a message at this place.
    fn counterpart(&self, place: &Place, field: u32) -> Option<u64>
        requires first { 1 ≤ field }
        ensures { MatchOption result
            (commands.counterpart self.now.file.now.fields place.now field ≡ None)
            (λ index. slice_get self.now.file.now.fields index ≡ commands.counterpart self.now.file.now.fields place.now field) }
    {
        let index = u64::from(field) - 1;
        let behind = self.file.count().saturating_sub(place.fields);
        if index >= behind {
            return None;
        }
        Some(place.fields + index)
    }
}

/// What is said of a field, counted from 1, of a message and of a field of a file, whose message was read. Points are read
/// only where the messages are not the same octets.
fn compare_with(
    alloc: Global,
    message: &Readable<'_>,
    field: u32,
    read: &FileMessage<'_>,
    other: &FileField<'_>,
    sections: bool,
) -> Result<Comparison, CompareStop>
    requires first { 1 ≤ field }
    requires last { field ≤ fields_of (readable_octets message.now) }
    requires clear { IsClear (readable_octets message.now) }
    requires octets { held_octets read.now.held ≡ other.now.message }
    requires same { IsTrue read.now.is_same → readable_octets message.now ≡ other.now.message }
    ensures { MatchResult result
        (λ comparison. (commands.on_counterpart (Some other.now) field ≡ None)
        × (comparison ≡ compared sections (readable_field message.now field) other.now))
        (StopsBy (commands.on_counterpart (Some other.now) field)) }
{
    let other_field = other.number();
    if read.is_same && field == other_field {
        return Ok(Comparison::Same);
    }
    match Readable::of(&read.held) {
        Ok(readable) => {
            let comparison = message.compare(alloc, field, &readable, other_field, sections)?;
            Ok(comparison)
        }
        Err(opaque) => Err(CompareStop::Kept(Cause::Packing {
            template: opaque.template,
            field,
        })),
    }
}
