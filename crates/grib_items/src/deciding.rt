//! What is to be done next with the octets that were read.

ghost use Rattle.std.specs.Prelude.{◌≡◌, ◌≢◌, ◌≤◌, ◌<◌, ◌+◌, ◌^◌, ◌⊎◌, true, false, cond, ℕ, List, [], Some, None, Err, Option, length, IfOk, IfSome};
ghost use Rattle.grib_io.specs.Outside.{Counted, Unfinished};
ghost use Rattle.grib_io.specs.Shelves.{Held};
ghost use Rattle.grib_base.specs.declared.fault.Fault.{Fault};
ghost use Rattle.grib_stream.specs.Stream.{begins, Faulty};
ghost use Rattle.grib_stream.specs.Acts.{world};
ghost use Rattle.grib_stream.specs.Faults.{OneCounted};
ghost use Rattle.grib_stream.specs.Task.{Stops, next_of};
ghost use Rattle.grib_stream.specs.Texts.{States};
ghost use Rattle.grib_stream.specs.declared.outcome.Outcome.TheVariants as outcomes;
ghost use Rattle.grib_stream.specs.declared.outcome.Outcome.TheVariants.{WriteFault, ShelfFault};
ghost use Rattle.grib_items.specs.Deeds.{outside};
ghost use Rattle.grib_items.specs.Answer as answers;
ghost use Rattle.grib_items.specs.Answer.{counts_of, place_by, instead_of, kept_of};
ghost use Rattle.grib_items.specs.Steps.{Fits, plan_of};
ghost use Rattle.grib_items.specs.Turning.{Turns, WaitsSoon, WaitsFor};

use crate::counting::{one_answered, one_kept, one_refused};
use crate::heading::{MARK, octets_passed, octets_wanted};
use crate::noting::{note_kept, note_refused};
use crate::policy::{Instead, ItemTotals, Policy};
use crate::writing::write_where;
use grib_base::{Fault, Refusal};
use grib_io::{Shelf, Sink};
use grib_stream::{Kept, Outcome, Performed, Performer, Place, READ, is_truncated};
use std::alloc::Global;

/// An item that was answered: its octets, and what was then counted.
#[derive(Clone, Copy, Debug, PartialEq, Eq)]
pub(crate) struct Gone {
    pub octets: u64,
    pub totals: ItemTotals,
}

/// Octets of which it is not known yet what comes of them.
#[derive(Clone, Copy, Debug, PartialEq, Eq)]
pub(crate) struct Wait {
    /// How many there have to be before it makes sense to look again.
    pub wanted: u64,
    /// Whether the message that begins with them is judged incrementally.
    pub heard: bool,
}

/// What was done with the octets that were read.
#[derive(Clone, Copy, Debug, PartialEq, Eq)]
pub(crate) enum Turn {
    /// An item was answered.
    Goes(Gone),
    /// Nothing, since more octets are needed.
    Waits(Wait),
}

/// Answers the item that these octets begin with, where it is known what it is.
pub(crate) fn decide<K: Performer, T: Sink, N: Sink, H: Shelf>(
    performer: &K,
    alloc: Global,
    policy: Policy,
    totals: &ItemTotals,
    place: u64,
    more: bool,
    octets: &[u8],
    output: &mut T,
    notes: &mut N,
    shelf: &mut H,
) -> Result<Turn, Outcome>
    requires begun { 4 ≤ length octets.now → begins octets.now ≡ true }
    requires fits { Fits totals.now place }
    requires within { place + length octets.now ≤ 2 ^ 40 }
    ensures turns { Turns (plan_of (K.task performer.now) (K.texts performer.now) policy) more totals.now place octets.now result
        (outside (world (T.contents output.old) (H.contents shelf.old)) (N.contents notes.old))
        (outside (world (T.contents output.new) (H.contents shelf.new)) (N.contents notes.new)) }
    ensures waits { IfOk result (WaitsSoon (K.hears performer.now) (K.task performer.now).judge policy octets.now) }
    ensures write_fault { result ≡ Err WriteFault
        → OneCounted (T.faults output.old) (T.faults output.new) (N.faults notes.old) (N.faults notes.new) }
    ensures output_calm { result ≢ Err WriteFault → T.faults output.new ≡ T.faults output.old }
    ensures notes_calm { result ≢ Err WriteFault → N.faults notes.new ≡ N.faults notes.old }
    ensures unfinished { Unfinished (T.settled output.old) (T.settled output.new) }
    ensures notes_unfinished { Unfinished (N.settled notes.old) (N.settled notes.new) }
    ensures shelf_fault { result ≡ Err ShelfFault → Counted (H.faults shelf.old) (H.faults shelf.new) }
    ensures shelf_calm { result ≢ Err ShelfFault → H.faults shelf.new ≡ H.faults shelf.old }
    ensures shelf { K.uses_shelf performer.now ≡ false → shelf.new ≡ shelf.old }
    ensures unshelved { K.uses_shelf performer.now ≡ false → result ≢ Err ShelfFault }
{
    if octets.len() < MARK {
        return Ok(Turn::Waits(Wait {
            wanted: MARK as u64,
            heard: false,
        }));
    }
    let here = Place {
        message: totals.counted.messages + 1,
        before: place,
        fields: totals.counted.fields,
    };
    match performer.perform(alloc, &here, octets, output, shelf) {
        Performed::Whole(message) => Ok(Turn::Goes(Gone {
            octets: message.octets,
            totals: one_answered(totals, &message),
        })),
        Performed::Refused(fault) => refuse(
            performer, alloc, policy, totals, &here, more, octets, fault, output, notes,
        ),
        Performed::Ends(outcome) => match kept_past(policy.kept, &outcome) {
            Some(past) => keep(
                performer, alloc, policy, totals, &here, more, octets, past, output, notes,
            ),
            None => Err(outcome),
        },
    }
}

/// A message that is not changed, and what is written instead.
#[derive(Clone, Copy, Debug, PartialEq, Eq)]
struct Past {
    instead: Instead,
    kept: Kept,
}

/// The message that an outcome leaves unchanged, where something is written instead.
fn kept_past(instead: Option<Instead>, outcome: &Outcome) -> Option<Past>
    ensures some { IfSome result (λ past. (instead ≡ Some past.instead) × (outcome.now ≡ outcomes.Kept past.kept)) }
    ensures none { result ≡ None → (instead ≡ None) ⊎ (kept_of outcome.now ≡ None) }
{
    let instead = instead?;
    match outcome {
        Outcome::Kept(kept) => Some(Past {
            instead,
            kept: *kept,
        }),
        _ => None,
    }
}

/// Skips octets that are refused, and copies them where they are copied. The run ends at them where refusals are not
/// skipped, and waits where it is not known yet how far they go.
fn refuse<K: Performer, T: Sink, N: Sink>(
    performer: &K,
    alloc: Global,
    policy: Policy,
    totals: &ItemTotals,
    here: &Place,
    more: bool,
    octets: &[u8],
    fault: Fault,
    output: &mut T,
    notes: &mut N,
) -> Result<Turn, Outcome>
    requires begun { begins octets.now ≡ true }
    requires refused { (K.task performer.now).judge octets.now ≡ Faulty fault }
    requires here { here.now ≡ place_by (counts_of totals.now) here.now.before }
    requires fits { Fits totals.now here.now.before }
    requires within { here.now.before + length octets.now ≤ 2 ^ 40 }
    ensures turns { (names : Option Held) → Turns (plan_of (K.task performer.now) (K.texts performer.now) policy) more totals.now
        here.now.before octets.now result
        (outside (world (T.contents output.old) names) (N.contents notes.old))
        (outside (world (T.contents output.new) names) (N.contents notes.new)) }
    ensures waits { IfOk result (WaitsSoon (K.hears performer.now) (K.task performer.now).judge policy octets.now) }
    ensures write_fault { result ≡ Err WriteFault
        → OneCounted (T.faults output.old) (T.faults output.new) (N.faults notes.old) (N.faults notes.new) }
    ensures output_calm { result ≢ Err WriteFault → T.faults output.new ≡ T.faults output.old }
    ensures notes_calm { result ≢ Err WriteFault → N.faults notes.new ≡ N.faults notes.old }
    ensures unfinished { Unfinished (T.settled output.old) (T.settled output.new) }
    ensures notes_unfinished { Unfinished (N.settled notes.old) (N.settled notes.new) }
    ensures unshelved { result ≢ Err ShelfFault }
{
    if more && is_truncated(&fault) {
        return Ok(Turn::Waits(wait_for(performer, policy, octets)));
    }
    let Some(instead) = policy.refused else {
        return Err(Outcome::Refused(Refusal {
            message: here.message,
            fault,
        }));
    };
    let Some(passed) = octets_passed(octets, more) else {
        return Ok(Turn::Waits(wait_for(performer, policy, octets)));
    };
    let copied = is_copied(instead, &octets[..passed]);
    note_refused(performer, alloc, copied, here, &fault, notes)?;
    let written = write_where(copied, &octets[..passed], output)?;
    Ok(Turn::Goes(Gone {
        octets: passed as u64,
        totals: one_refused(totals, passed as u64, written),
    }))
}

/// Whether refused octets are copied: a `GRIB` alone never is.
fn is_copied(instead: Instead, octets: &[u8]) -> bool
    ensures { result ≡ answers.is_copied (Some instead) octets.now }
{
    match instead {
        Instead::Copy => octets.len() != MARK,
        Instead::Pass => false,
    }
}

/// What is to be waited for where octets are refused, and it is not known how far. Where nothing is skipped, a message
/// is judged incrementally for which more octets are needed than one read asks for, if it may be.
fn wait_for<K: Performer>(performer: &K, policy: Policy, octets: &[u8]) -> Wait
    requires begun { begins octets.now ≡ true }
    requires refused { (fault : Fault) × ((K.task performer.now).judge octets.now ≡ Faulty fault) }
    ensures more { length octets.now < result.wanted }
    ensures stated { length octets.now + 1 < result.wanted → States octets.now result.wanted }
    ensures waits { WaitsFor (K.hears performer.now) (K.task performer.now).judge policy octets.now result }
{
    let wanted = octets_wanted(octets);
    Wait {
        wanted,
        heard: wanted > READ as u64 && policy.passes_nothing() && performer.is_heard(octets),
    }
}

/// Skips a message that is not changed, and copies it where it is copied.
fn keep<K: Performer, T: Sink, N: Sink>(
    performer: &K,
    alloc: Global,
    policy: Policy,
    totals: &ItemTotals,
    here: &Place,
    more: bool,
    octets: &[u8],
    past: Past,
    output: &mut T,
    notes: &mut N,
) -> Result<Turn, Outcome>
    requires begun { begins octets.now ≡ true }
    requires kept { next_of (K.task performer.now) here.now octets.now ≡ Stops (outcomes.Kept past.kept) }
    requires instead { policy.kept ≡ Some past.instead }
    requires here { here.now ≡ place_by (counts_of totals.now) here.now.before }
    requires fits { Fits totals.now here.now.before }
    requires within { here.now.before + length octets.now ≤ 2 ^ 40 }
    ensures turns { (names : Option Held) → Turns (plan_of (K.task performer.now) (K.texts performer.now) policy) more totals.now
        here.now.before octets.now result
        (outside (world (T.contents output.old) names) (N.contents notes.old))
        (outside (world (T.contents output.new) names) (N.contents notes.new)) }
    ensures waits { IfOk result (WaitsSoon (K.hears performer.now) (K.task performer.now).judge policy octets.now) }
    ensures write_fault { result ≡ Err WriteFault
        → OneCounted (T.faults output.old) (T.faults output.new) (N.faults notes.old) (N.faults notes.new) }
    ensures output_calm { result ≢ Err WriteFault → T.faults output.new ≡ T.faults output.old }
    ensures notes_calm { result ≢ Err WriteFault → N.faults notes.new ≡ N.faults notes.old }
    ensures unfinished { Unfinished (T.settled output.old) (T.settled output.new) }
    ensures notes_unfinished { Unfinished (N.settled notes.old) (N.settled notes.new) }
    ensures unshelved { result ≢ Err ShelfFault }
{
    let message = match performer.whole(alloc, octets) {
        Ok(message) => message,
        Err(_) => return Err(Outcome::Memory),
    };
    note_kept(performer, alloc, here, &past.kept, notes)?;
    let copied = copies(past.instead);
    let written = write_where(copied, &octets[..message.octets as usize], output)?;
    Ok(Turn::Goes(Gone {
        octets: message.octets,
        totals: one_kept(totals, &message, written),
    }))
}

/// Whether a message that is not changed is copied.
fn copies(instead: Instead) -> bool
    ensures { (message : List ℕ) → cond result message [] ≡ instead_of instead message }
{
    matches!(instead, Instead::Copy)
}
