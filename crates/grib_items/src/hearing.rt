//! An item that is judged incrementally: a message that is judged as its octets come, so that it is not held whole.

ghost use Rattle.std.specs.Prelude.{◌≡◌, ◌≢◌, ◌≤◌, ◌+◌, ◌^◌, true, Option, length, take, Err};
ghost use Rattle.grib_io.specs.Outside.{Counted, Unfinished};
ghost use Rattle.grib_io.specs.Shelves.{Held};
ghost use Rattle.grib_stream.specs.Stream.{begins};
ghost use Rattle.grib_stream.specs.Acts.{world};
ghost use Rattle.grib_stream.specs.declared.outcome.Outcome.TheVariants.{ReadFault, WriteFault, ShelfFault};
ghost use Rattle.grib_items.specs.Steps.{Fits};
ghost use Rattle.grib_items.specs.Turning.{HearsItem};

use crate::counting::one_answered;
use crate::deciding::Gone;
use crate::policy::ItemTotals;
use grib_io::{Sink, Source};
use grib_stream::{Outcome, Performer, Place, Window, answer_heard};
use std::alloc::Global;

/// Judges the message with which the octets of the window begin, and answers it where it is whole. Else it answers how
/// the run ends.
pub(crate) fn hear_item<K: Performer, S: Source, T: Sink>(
    performer: &K,
    alloc: Global,
    totals: &ItemTotals,
    place: u64,
    window: &mut Window,
    input: &mut S,
    output: &mut T,
    left: &mut u64,
) -> Result<Gone, Outcome>
    requires long { 8 ≤ length window.old.octets }
    requires short { length window.old.octets ≤ 65536 }
    requires begun { begins window.old.octets ≡ true }
    requires heard { K.hears performer.now (take 8 window.old.octets) ≡ true }
    requires fits { Fits totals.now place }
    requires within { place + length window.old.octets + left.old ≤ 2 ^ 40 }
    ensures hears { (names : Option Held) → HearsItem (K.task performer.now) totals.now place result
        (S.left input.old) (S.left input.new) window.old.octets window.new.octets left.old left.new
        (world (T.contents output.old) names) (world (T.contents output.new) names) }
    ensures short { length window.new.octets ≤ 65536 }
    ensures read_fault { result ≡ Err ReadFault → Counted (S.faults input.old) (S.faults input.new) }
    ensures read_calm { result ≢ Err ReadFault → S.faults input.new ≡ S.faults input.old }
    ensures write_fault { result ≡ Err WriteFault → Counted (T.faults output.old) (T.faults output.new) }
    ensures write_calm { result ≢ Err WriteFault → T.faults output.new ≡ T.faults output.old }
    ensures unfinished { Unfinished (T.settled output.old) (T.settled output.new) }
    ensures not_shelf { result ≢ Err ShelfFault }
{
    let here = Place {
        message: totals.counted.messages + 1,
        before: place,
        fields: totals.counted.fields,
    };
    let message = answer_heard(performer, alloc, &here, window, input, output, left)?;
    Ok(Gone {
        octets: message.octets,
        totals: one_answered(totals, &message),
    })
}
