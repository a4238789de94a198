//! A message that is judged incrementally, as its octets come, and answered.

ghost use Rattle.std.specs.Prelude.{◌≡◌, ◌≢◌, ◌≤◌, ◌^◌, true, Option, length, take, Err};
ghost use Rattle.grib_io.specs.Outside.{Counted, CountsStops, Unfinished};
ghost use Rattle.grib_io.specs.Shelves.{Held};
ghost use Rattle.grib_stream.specs.Acts.{world};
ghost use Rattle.grib_stream.specs.Hearing.{Listens};
ghost use Rattle.grib_stream.specs.Listening.{AnswersHeard, refusal_at};
ghost use Rattle.grib_stream.specs.declared.outcome.Outcome.TheVariants.{Refused, ReadFault, WriteFault, ShelfFault};

use crate::gathering::{Rest, gather, probe};
use crate::hearing::{HearStop, Hearer};
use crate::outcome::Outcome;
use crate::performer::{Performer, Whole};
use crate::place::Place;
use crate::window::Window;
use grib_base::{Fault, Refusal};
use grib_io::{Sink, Source, Stop};
use std::alloc::Global;

/// How a message is judged incrementally.
#[derive(Drop)]
pub(crate) enum Heard<A> {
    /// It is whole.
    Whole(A),
    /// It is refused, whatever follows.
    Refused(Fault),
    /// The input ended in it, for which it is refused.
    Ended(Fault),
    /// As many octets were taken as are answered, and for their end it is refused.
    Full(Fault),
}

/// Judges the message with which the octets of the window begin, and reads it in pieces. Each piece is judged
/// before the next is read. Of the input no more than `left` octets are taken, from which what was read is
/// taken away.
pub(crate) fn listen<K: Performer, S: Source>(
    performer: &K,
    alloc: Global,
    window: &mut Window,
    input: &mut S,
    left: &mut u64,
) -> Result<Heard<K::Hearer>, Stop>
    requires long { 8 ≤ length window.old.octets }
    requires short { length window.old.octets ≤ 65536 }
    requires heard { K.hears performer.now (take 8 window.old.octets) ≡ true }
    ensures listens { Listens (K.Hearer.heard (K.judges performer.now)) (K.task performer.now).judge result
        (S.left input.old) (S.left input.new) window.old.octets window.new.octets left.old left.new }
    ensures short { length window.new.octets ≤ 65536 }
    ensures counted { CountsStops result (S.faults input.old) (S.faults input.new) }
{
    let mut hearer = performer.hear(alloc);
    'pieces: loop {
        let count = match hearer.push(window.as_slice()) {
            Ok(count) => count,
            Err(HearStop::Refused(fault)) => return Ok(Heard::Refused(fault)),
            Err(HearStop::Memory) => return Err(Stop::Memory),
        };
        window.pass(count);
        let fault = match hearer.cut() {
            None => return Ok(Heard::Whole(hearer)),
            Some(fault) => fault,
        };
        match gather(window, input, 1, left)? {
            Rest::Open => {}
            Rest::Full => return Ok(Heard::Full(fault)),
            Rest::Ended => return Ok(Heard::Ended(fault)),
        }
    }
}

/// Judges the message with which the octets of the window begin, and answers it where it is whole. Else it
/// answers how the run ends.
pub fn answer_heard<K: Performer, S: Source, T: Sink>(
    performer: &K,
    alloc: Global,
    place: &Place,
    window: &mut Window,
    input: &mut S,
    output: &mut T,
    left: &mut u64,
) -> Result<Whole, Outcome>
    requires long { 8 ≤ length window.old.octets }
    requires short { length window.old.octets ≤ 65536 }
    requires heard { K.hears performer.now (take 8 window.old.octets) ≡ true }
    requires message { place.now.message ≤ 2 ^ 41 }
    requires before { place.now.before ≤ 2 ^ 41 }
    requires fields { place.now.fields ≤ 2 ^ 41 }
    ensures answers { (names : Option Held) → AnswersHeard (K.task performer.now) place.now result
        (S.left input.old) (S.left input.new) window.old.octets window.new.octets left.old left.new
        (world (T.contents output.old) names) (world (T.contents output.new) names) }
    ensures short { length window.new.octets ≤ 65536 }
    ensures read_fault { result ≡ Err ReadFault → Counted (S.faults input.old) (S.faults input.new) }
    ensures read_calm { result ≢ Err ReadFault → S.faults input.new ≡ S.faults input.old }
    ensures write_fault { result ≡ Err WriteFault → Counted (T.faults output.old) (T.faults output.new) }
    ensures write_calm { result ≢ Err WriteFault → T.faults output.new ≡ T.faults output.old }
    ensures unfinished { Unfinished (T.settled output.old) (T.settled output.new) }
    ensures not_shelf { result ≢ Err ShelfFault }
{
    match listen(performer, alloc, window, input, left) {
        Ok(Heard::Whole(hearer)) => performer.perform_heard(alloc, place, &hearer, output),
        Ok(Heard::Refused(fault)) => Err(refused(place, fault)),
        Ok(Heard::Ended(fault)) => Err(refused(place, fault)),
        Ok(Heard::Full(fault)) => {
            probe(input)?;
            Err(refused(place, fault))
        }
        Err(Stop::Failed) => Err(Outcome::ReadFault),
        Err(Stop::Memory) => Err(Outcome::Memory),
    }
}

/// The refusal of a message at this place.
fn refused(place: &Place, fault: Fault) -> Outcome
    ensures { result ≡ Refused (refusal_at place.now fault) }
{
    Outcome::Refused(Refusal {
        message: place.message,
        fault,
    })
}
