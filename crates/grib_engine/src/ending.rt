//! The end of a run that read its input to its end.

ghost use Rattle.std.specs.Prelude.{◌≡◌, false, IfOk, Ok};
ghost use Rattle.std.specs.Io.KnownBytes.{Keeps};
ghost use Rattle.grib_stream.specs.declared.outcome.Outcome.TheVariants.{Memory};
ghost use Rattle.grib_command.specs.Closing.{EndsNoted, StandsWhole};
ghost use Rattle.grib_command.specs.Outcomes.{note_of};
ghost use Rattle.grib_run_spec.specs.Stated as stated;
ghost use Rattle.grib_run_spec.specs.Stated.{outcome_by, note_by};

use crate::closing::close;
use grib_command::Ending;
use grib_io::Sink;
use grib_items::ItemTotals;
use grib_stream::Outcome;
use std::alloc::{AllocError, Global};

/// Ends a run in which the input was read to its end and all was done.
pub(crate) fn close_at_end<T: Sink, N: Sink>(
    ending: Ending,
    alloc: Global,
    totals: &ItemTotals,
    output: &mut T,
    notes: &mut N,
) -> Outcome
    ensures ends { EndsNoted T.contents T.faults T.settled N.contents N.faults N.settled
        (outcome_by ending (Ok totals.now)) (note_by ending (Ok totals.now)) result output.old output.new notes.old notes.new }
    ensures memory_noted { T.takes_memory ≡ false → N.takes_memory ≡ false → result ≡ Memory
        → StandsWhole T.settled N.contents N.settled (note_of Memory) output.new notes.old notes.new }
    ensures output_kept { Keeps (T.contents output.old) (T.contents output.new) }
{
    match note_at_end(ending, alloc, totals) {
        Ok(note) => close(
            outcome_at_end(ending, totals),
            note.as_slice(),
            output,
            notes,
        ),
        Err(_) => close(Outcome::Memory, b"memory\n", output, notes),
    }
}

/// How a run ends at the end of its input.
fn outcome_at_end(ending: Ending, totals: &ItemTotals) -> Outcome
    ensures { result ≡ outcome_by ending (Ok totals.now) }
{
    if is_plain(totals) {
        return ending.outcome(&totals.counted);
    }
    Outcome::Passed {
        refused: totals.refused,
        kept: totals.kept,
    }
}

/// What is then noted behind the lines.
fn note_at_end(ending: Ending, alloc: Global, totals: &ItemTotals) -> Result<Vec<u8>, AllocError>
    ensures { IfOk result (λ note. note.items ≡ note_by ending (Ok totals.now)) }
{
    if is_plain(totals) {
        return ending.note(alloc, &totals.counted);
    }
    ending.passed_note(alloc, &totals.counted, totals.refused, totals.kept)
}

/// Whether nothing was passed, and no message was found that cannot be changed.
fn is_plain(totals: &ItemTotals) -> bool
    ensures { result ≡ stated.is_plain totals.now }
{
    totals.refused == 0 && totals.kept == 0
}
