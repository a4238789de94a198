//! The end of a run: its note, and what a lower layer holds back.

ghost use Rattle.std.specs.Prelude.{◌≡◌, ◌≢◌, true, false, IfErr, OnOk, MatchResult};
ghost use Rattle.std.specs.Io.KnownBytes.{Keeps};
ghost use Rattle.grib_command.specs.Closing.{ClosesRun, EndsInTurn, EndsRun, StandsWhole};
ghost use Rattle.grib_command.specs.Counts.{NoneCounted, CountsEither};
ghost use Rattle.grib_command.specs.Outcomes.{note_with};
ghost use Rattle.grib_command.specs.Pending.{Writes};
ghost use Rattle.grib_stream.specs.declared.outcome.Outcome.TheVariants.{WriteFault};

use grib_command::{
    file_note, kept_note, passed_note, surfaces_note, table_note, usage_note, write_whole,
};
use grib_io::{Sink, Stop};
use grib_stream::Outcome;
use grib_text::refusal_note;
use std::alloc::Global;

/// Ends a run with this outcome: appends the note to `notes`, finishes the output, and then the notes.
/// After a write fault it does nothing. It answers the outcome, or WriteFault or Memory where the end
/// itself does not succeed.
pub fn close<T: Sink, N: Sink>(
    outcome: Outcome,
    note: &[u8],
    output: &mut T,
    notes: &mut N,
) -> Outcome
    ensures closes { ClosesRun T.contents T.faults T.settled N.contents N.faults N.settled
        outcome note.now result output.old output.new notes.old notes.new }

    // Where neither sink takes memory and no write fails, all is brought to its end, after Memory too.
    ensures whole { T.takes_memory ≡ false → N.takes_memory ≡ false → result ≢ WriteFault
        → (result ≡ outcome) × StandsWhole T.settled N.contents N.settled note.now output.new notes.old notes.new }

    // After a write fault all is as it was.
    ensures after_fault { outcome ≡ WriteFault
        → (result ≡ WriteFault) × (output.new ≡ output.old) × (notes.new ≡ notes.old) }
{
    if matches!(outcome, Outcome::WriteFault) {
        return outcome;
    }
    match settle(note, output, notes) {
        Ok(()) => outcome,
        Err(Stop::Failed) => Outcome::WriteFault,
        Err(Stop::Memory) => Outcome::Memory,
    }
}

/// Ends a run with the note of its outcome, which is `done` where the outcome is Done. Where there is no
/// memory for the note, the outcome is Memory.
pub fn close_with_note<T: Sink, N: Sink>(
    alloc: Global,
    outcome: Outcome,
    done: &[u8],
    output: &mut T,
    notes: &mut N,
) -> Outcome
    ensures ends { EndsRun T.contents T.faults T.settled N.contents N.faults N.settled
        outcome done.now result output.old output.new notes.old notes.new }

    // Where neither sink takes memory and no write fails, all is brought to its end, after Memory too.
    ensures whole { T.takes_memory ≡ false → N.takes_memory ≡ false → result ≢ WriteFault
        → StandsWhole T.settled N.contents N.settled (note_with done.now result) output.new notes.old notes.new }
    ensures after_fault { outcome ≡ WriteFault
        → (result ≡ WriteFault) × (output.new ≡ output.old) × (notes.new ≡ notes.old) }
    ensures output_kept { Keeps (T.contents output.old) (T.contents output.new) }
{
    match outcome {
        Outcome::Refused(refusal) => match refusal_note(alloc, &refusal) {
            Ok(note) => close(outcome, note.as_slice(), output, notes),
            Err(_) => close(Outcome::Memory, b"memory\n", output, notes),
        },
        Outcome::Usage(word) => match usage_note(alloc, word) {
            Ok(note) => close(outcome, note.as_slice(), output, notes),
            Err(_) => close(Outcome::Memory, b"memory\n", output, notes),
        },
        Outcome::Kept(kept) => match kept_note(alloc, &kept) {
            Ok(note) => close(outcome, note.as_slice(), output, notes),
            Err(_) => close(Outcome::Memory, b"memory\n", output, notes),
        },
        Outcome::TableRefused(refusal) => match table_note(alloc, &refusal) {
            Ok(note) => close(outcome, note.as_slice(), output, notes),
            Err(_) => close(Outcome::Memory, b"memory\n", output, notes),
        },
        Outcome::SurfacesRefused(refusal) => match surfaces_note(alloc, &refusal) {
            Ok(note) => close(outcome, note.as_slice(), output, notes),
            Err(_) => close(Outcome::Memory, b"memory\n", output, notes),
        },
        Outcome::FileRefused(refusal) => match file_note(alloc, &refusal) {
            Ok(note) => close(outcome, note.as_slice(), output, notes),
            Err(_) => close(Outcome::Memory, b"memory\n", output, notes),
        },
        Outcome::Passed { refused, kept } => match passed_note(alloc, refused, kept) {
            Ok(note) => close(outcome, note.as_slice(), output, notes),
            Err(_) => close(Outcome::Memory, b"memory\n", output, notes),
        },
        Outcome::Done => close(outcome, done, output, notes),
        Outcome::Differs => close(outcome, b"", output, notes),
        Outcome::WriteFault => close(outcome, b"", output, notes),
        Outcome::ReadFault => close(outcome, b"read fault\n", output, notes),
        Outcome::ShelfFault => close(outcome, b"shelf fault\n", output, notes),
        Outcome::Memory => close(outcome, b"memory\n", output, notes),
        Outcome::InputTooLong => close(outcome, b"input too long\n", output, notes),
    }
}

/// Appends the note, and finishes both sinks.
fn settle<T: Sink, N: Sink>(note: &[u8], output: &mut T, notes: &mut N) -> Result<(), Stop>
    ensures noted { Writes result (N.contents notes.old) (N.contents notes.new) note.now }
    ensures settled { OnOk result ((T.settled output.new ≡ true) × (N.settled notes.new ≡ true)) }
    ensures output_kept { Keeps (T.contents output.old) (T.contents output.new) }
    ensures counted { MatchResult result
        (λ _. NoneCounted (T.faults output.old) (T.faults output.new)
        (N.faults notes.old) (N.faults notes.new))
        (λ stop. CountsEither stop (T.faults output.old) (T.faults output.new)
        (N.faults notes.old) (N.faults notes.new)) }
    ensures memory { T.takes_memory ≡ false → N.takes_memory ≡ false → IfErr result (λ stop. stop ≡ Stop.Failed) }
    ensures order { EndsInTurn T.faults T.settled N.contents N.faults N.settled note.now
        output.old output.new notes.old notes.new }
{
    write_whole(notes, note)?;
    output.finish()?;
    notes.finish()
}
