//! What is written where no input is read: a message that is made, or a page.

ghost use Rattle.std.specs.Prelude.{◌≡◌, ◌≢◌, ◌⊎◌, ◌||◌, true, None, IfOk};
ghost use Rattle.std.specs.Io.KnownBytes.{Appends};
ghost use Rattle.grib2_message.specs.Message.{IsMessage};
ghost use Rattle.grib_io.specs.Outside.{AppendsFront, Counted, Unfinished};
ghost use Rattle.grib_synthetic.specs.Made.{made, MayBeMade};
ghost use Rattle.grib_packing.specs.Misfits.{ToSimple};
ghost use Rattle.grib_packing.specs.Targets.{target_of};
ghost use Rattle.grib_repack.specs.Repacked.{repacked, repack_misfit};
ghost use Rattle.grib_stream.specs.declared.outcome.Outcome.TheVariants.{Done, Memory, WriteFault};
ghost use Rattle.grib_items.specs.declared.policy.Policy.{Policy};
ghost use Rattle.grib_command.specs.Jobs.{is_target};
ghost use Rattle.grib_command.specs.Pending.{WritesTo};
ghost use Rattle.grib_run_spec.specs.Seen.{Seen};
ghost use Rattle.grib_run_spec.specs.Serving.{Serves};
ghost use Rattle.grib_run_spec.specs.Tasks as tasks;
ghost use Rattle.grib_run_spec.specs.Tasks.{Makes, writing, made_answer};
ghost use Rattle.grib_engine.specs.Beside.{beside};

use crate::closing::close_with_note;
use grib_base::{Profile, ReadFault};
use grib_command::{made_note, write_whole};
use grib_io::{Sink, Stop};
use grib_repack::{RepackFault, RepackTarget, repack};
use grib_stream::Outcome;
use grib_synthetic::laws::{
    what_is_made_fits, what_is_made_is_accepted, what_is_made_is_packed_simply,
    what_is_made_stays_short,
};
use grib_synthetic::{made_message, made_summary};
use grib2_message::laws::field_holds;
use grib2_message::{Message, ReadableMessage, read_message};
use std::alloc::{AllocError, Global};

/// A message that was made and packed anew, and the note on it.
#[derive(Debug, Drop)]
struct Made {
    octets: Vec<u8>,
    note: Vec<u8>,
}

/// Makes a message from the number `seed`, writes it packed anew, and notes what was made.
pub(crate) fn serve_made<T: Sink, N: Sink>(
    alloc: Global,
    seed: u32,
    ni: u32,
    nj: u32,
    target: RepackTarget,
    output: &mut T,
    notes: &mut N,
) -> Outcome
    requires made { MayBeMade seed ni nj }
    requires target { is_target target ≡ true }
    ensures { (rest : Seen) (policy : Policy)
        → let see = beside rest T.contents T.faults T.settled N.contents N.faults N.settled in
        Serves (T.takes_memory || N.takes_memory) (Makes (made_answer seed ni nj target)) policy result
        (see output.old notes.old) (see output.new notes.new) }
{
    match make(alloc, seed, ni, nj, target) {
        Ok(made) => write_noted(
            alloc,
            made.octets.as_slice(),
            made.note.as_slice(),
            output,
            notes,
        ),
        Err(_) => close_with_note(alloc, Outcome::Memory, b"", output, notes),
    }
}

/// Writes these octets, and ends a run with this note. Nothing is read.
pub fn write_noted<T: Sink, N: Sink>(
    alloc: Global,
    octets: &[u8],
    note: &[u8],
    output: &mut T,
    notes: &mut N,
) -> Outcome
    ensures { (rest : Seen) (policy : Policy)
        → let see = beside rest T.contents T.faults T.settled N.contents N.faults N.settled in
        Serves (T.takes_memory || N.takes_memory) (Makes (writing octets.now note.now)) policy result
        (see output.old notes.old) (see output.new notes.new) }
{
    let outcome = put(octets, output);
    close_with_note(alloc, outcome, note, output, notes)
}

/// Writes these octets and passes them on, and answers how the run ends then.
fn put<T: Sink>(octets: &[u8], output: &mut T) -> Outcome
    ensures one_of { (result ≡ Done) ⊎ ((result ≡ WriteFault) ⊎ (result ≡ Memory)) }
    ensures whole { result ≡ Done → Appends (T.contents output.old) (T.contents output.new) octets.now }
    ensures front { AppendsFront (T.contents output.old) (T.contents output.new) octets.now }
    ensures counted { result ≡ WriteFault → Counted (T.faults output.old) (T.faults output.new) }
    ensures calm { result ≢ WriteFault → T.faults output.new ≡ T.faults output.old }
    ensures unfinished { Unfinished (T.settled output.old) (T.settled output.new) }
{
    match pass(octets, output) {
        Ok(()) => Outcome::Done,
        Err(Stop::Failed) => Outcome::WriteFault,
        Err(Stop::Memory) => Outcome::Memory,
    }
}

/// Writes these octets and passes them on.
fn pass<T: Sink>(octets: &[u8], output: &mut T) -> Result<(), Stop>
    ensures { WritesTo T.contents T.faults T.settled result output.old output.new octets.now }
{
    write_whole(output, octets)?;
    output.pass_on()
}

/// Makes a message and packs it anew. Nothing of it is lost, and it is not too long.
fn make(
    alloc: Global,
    seed: u32,
    ni: u32,
    nj: u32,
    target: RepackTarget,
) -> Result<Made, AllocError>
    requires made { MayBeMade seed ni nj }
    requires target { is_target target ≡ true }
    ensures octets { IfOk result (λ m. m.octets.items ≡ repacked (target_of target) (made seed ni nj)) }
    ensures note { IfOk result (λ m. m.note.items ≡ tasks.note_of_made seed ni nj target) }
{
    what_is_made_is_accepted();
    what_is_made_is_packed_simply();
    what_is_made_fits();
    what_is_made_stays_short();
    let message = made_message(alloc, seed, ni, nj)?;
    let before = message.as_slice().len() as u64;
    let octets = in_packing(alloc, message, target)?;
    let summary = made_summary(seed, ni, nj);
    let after = octets.as_slice().len() as u64;
    let note = made_note(alloc, before, after, summary.present, summary.sum)?;
    Ok(Made { octets, note })
}

/// A message in simple packing, of which nothing is lost, in the packing of the target.
fn in_packing(alloc: Global, message: Vec<u8>, target: RepackTarget) -> Result<Vec<u8>, AllocError>
    requires message { IsMessage message.items }
    requires target { is_target target ≡ true }
    requires fits { repack_misfit (target_of target) message.items ≡ None }
    requires simple { repacked ToSimple message.items ≡ message.items }
    ensures { IfOk result (λ packed. packed.items ≡ repacked (target_of target) message.items) }
{
    match target {
        RepackTarget::Simple => Ok(message),
        _ => repack_whole(alloc, message.as_slice(), target),
    }
}

/// A message of which nothing is lost, with its fields packed anew.
fn repack_whole(alloc: Global, octets: &[u8], target: RepackTarget) -> Result<Vec<u8>, AllocError>
    requires message { IsMessage octets.now }
    requires target { is_target target ≡ true }
    requires fits { repack_misfit (target_of target) octets.now ≡ None }
    ensures { IfOk result (λ packed. packed.items ≡ repacked (target_of target) octets.now) }
{
    let message = match read_message(alloc, Profile::Stated, octets) {
        Ok(message) => message,
        Err(ReadFault::Memory) => return Err(AllocError),
        Err(ReadFault::Refused(_)) => unreachable!(),
    };
    match repack(alloc, &readable(&message), target) {
        Ok(packed) => Ok(packed),
        Err(RepackFault::Memory) => Err(AllocError),
        Err(
            RepackFault::SecondaryMissing { .. }
            | RepackFault::OutOfRange { .. }
            | RepackFault::DifferenceRange { .. }
            | RepackFault::OutputTooLong(_),
        ) => unreachable!(),
    }
}

/// A message that the stated profile accepts, whose values can be read.
fn readable<'a>(message: &'a Message<'a>) -> ReadableMessage<'a>
    requires { IsMessage message.now }
    ensures { result ≡ message.now }
{
    field_holds();
    match ReadableMessage::of(message) {
        Ok(readable) => readable,
        Err(_opaque) => unreachable!(),
    }
}
