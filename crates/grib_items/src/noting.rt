//! The lines that are noted of what a run goes past.

ghost use Rattle.std.specs.Prelude.{◌≡◌, List, ℕ, IfOk};
ghost use Rattle.grib_io.specs.Outside.{Unfinished};
ghost use Rattle.grib_items.specs.Writing.{Writes};

use crate::writing::write_whole;
use grib_base::Fault;
use grib_io::Sink;
use grib_stream::{Kept, Outcome, Performer, Place};
use std::alloc::{AllocError, Global};

/// Notes the line of a refusal, whose octets are copied or not.
pub(crate) fn note_refused<K: Performer, N: Sink>(
    performer: &K,
    alloc: Global,
    copied: bool,
    here: &Place,
    fault: &Fault,
    notes: &mut N,
) -> Result<(), Outcome>
    ensures writes { Writes result (N.contents notes.old) (N.contents notes.new)
        ((K.texts performer.now).refused copied here.now fault.now) (N.faults notes.old) (N.faults notes.new) }
    ensures unfinished { Unfinished (N.settled notes.old) (N.settled notes.new) }
{
    note_line(performer.refused_line(alloc, copied, here, fault), notes)
}

/// Notes the line of a message that is not changed.
pub(crate) fn note_kept<K: Performer, N: Sink>(
    performer: &K,
    alloc: Global,
    here: &Place,
    kept: &Kept,
    notes: &mut N,
) -> Result<(), Outcome>
    ensures writes { Writes result (N.contents notes.old) (N.contents notes.new)
        ((K.texts performer.now).kept here.now kept.now) (N.faults notes.old) (N.faults notes.new) }
    ensures unfinished { Unfinished (N.settled notes.old) (N.settled notes.new) }
{
    note_line(performer.kept_line(alloc, here, kept), notes)
}

/// Notes a line, unless there was no memory for it.
fn note_line<N: Sink>(line: Result<Vec<u8>, AllocError>, notes: &mut N) -> Result<(), Outcome>
    ensures writes { (text : List ℕ) → IfOk line (λ line. line.items ≡ text)
        → Writes result (N.contents notes.old) (N.contents notes.new) text (N.faults notes.old) (N.faults notes.new) }
    ensures unfinished { Unfinished (N.settled notes.old) (N.settled notes.new) }
{
    match line {
        Ok(line) => write_whole(notes, line.as_slice()),
        Err(_) => Err(Outcome::Memory),
    }
}
