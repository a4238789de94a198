//! What a command prints and notes at the end of an input.

ghost use Rattle.std.specs.Prelude.{◌≡◌, IfOk};
ghost use Rattle.grib_command.specs.Endings as endings;
ghost use Rattle.grib_command.specs.Pending.{WritesTo};

use crate::notes::{comparison_line, passed_note, written_note, written_passed_note};
use crate::writing::write_whole;
use grib_io::{Sink, Stop};
use grib_stream::{Outcome, Totals};
use grib_text::total_line;
use std::alloc::{AllocError, Global};

/// What is printed and noted at the end of an input.
#[derive(Clone, Copy, Debug, PartialEq, Eq)]
pub enum Ending {
    /// Nothing.
    Silent,
    /// The total line is printed.
    Total,
    /// It is noted what was counted and written.
    Written,
    /// It is printed how many fields are the same, differ, or stand on one side alone: of the input, and of a file that
    /// has `fields` fields. What is counted as written of a message is the number of its fields that differ.
    Compared { fields: u64 },
}

impl Ending {
    /// Writes what is printed at the end of the input.
    pub fn write<T: Sink>(&self, alloc: Global, totals: &Totals, output: &mut T) -> Result<(), Stop>
        ensures { WritesTo T.contents T.faults T.settled result output.old output.new
            (endings.ending_text self.now totals.now) }
    {
        match self {
            Ending::Silent | Ending::Written => Ok(()),
            Ending::Compared { fields } => {
                let line = comparison_line(alloc, totals, *fields)?;
                write_whole(output, line.as_slice())
            }
            Ending::Total => {
                let line = total_line(alloc, totals.messages, totals.fields, totals.skipped)?;
                write_whole(output, line.as_slice())
            }
        }
    }

    /// What is noted at the end of the input.
    pub fn note(&self, alloc: Global, totals: &Totals) -> Result<Vec<u8>, AllocError>
        ensures { IfOk result (λ note. note.items ≡ endings.ending_note self.now totals.now) }
    {
        match self {
            Ending::Silent | Ending::Total | Ending::Compared { .. } => Ok(Vec::new(alloc)),
            Ending::Written => written_note(alloc, totals),
        }
    }

    /// What is noted at the end of the input, where this many refusals were passed and this many
    /// messages not changed.
    pub fn passed_note(
        &self,
        alloc: Global,
        totals: &Totals,
        refused: u64,
        kept: u64,
    ) -> Result<Vec<u8>, AllocError>
        ensures { IfOk result (λ note. note.items ≡ endings.passed_ending_note self.now totals.now refused kept) }
    {
        match self {
            Ending::Silent | Ending::Total | Ending::Compared { .. } => {
                passed_note(alloc, refused, kept)
            }
            Ending::Written => written_passed_note(alloc, totals, refused, kept),
        }
    }

    /// How a run ends that read its input to its end.
    pub fn outcome(&self, totals: &Totals) -> Outcome
        ensures { result ≡ endings.ending_outcome self.now totals.now }
    {
        match self {
            Ending::Silent | Ending::Total | Ending::Written => Outcome::Done,
            Ending::Compared { fields } => {
                if totals.written == 0 && totals.fields == *fields {
                    Outcome::Done
                } else {
                    Outcome::Differs
                }
            }
        }
    }
}
