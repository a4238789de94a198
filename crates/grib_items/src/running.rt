//! The items of an input, answered one after another in whatever pieces it comes.

ghost use Rattle.std.specs.Prelude.{◌≡◌, ◌≢◌, ◌≤◌, ◌<◌, ◌^◌, ◌+◌, false, length, max, IfErr};
ghost use Rattle.grib_io.specs.Outside.{Unfinished};
ghost use Rattle.grib_stream.specs.Acts.{world};
ghost use Rattle.grib_stream.specs.Faults.{faults};
ghost use Rattle.grib_stream.specs.Soon.{RefusesSoon};
ghost use Rattle.grib_stream.specs.declared.outcome.Outcome.TheVariants.{ShelfFault};
ghost use Rattle.grib_stream.specs.Outcomes.{is_whole};
ghost use Rattle.grib_items.specs.Answer.{no_counts, totals_by};
ghost use Rattle.grib_items.specs.Deeds.{outside};
ghost use Rattle.grib_items.specs.Laws.{nothing, outcome_of};
ghost use Rattle.grib_items.specs.Reading.{Advances, goes_on};
ghost use Rattle.grib_items.specs.Run.{Reaches, CountsOne};
ghost use Rattle.grib_items.specs.Steps.{plan_of};

use crate::deciding::{Turn, decide};
use crate::hearing::hear_item;
use crate::policy::{ItemTotals, Policy};
use crate::writing::pass_on;
use grib_io::{Shelf, Sink, Source};
use grib_stream::{Outcome, Performer, Rest, Totals, Window, octets_before_mark, probe, read_on};
use std::alloc::Global;

/// Answers the items of an input, of which no more than `limit` octets are answered. It answers what was counted where
/// the input was read to its end, and else how the run ends.
pub(crate) fn answer_all<K: Performer, S: Source, T: Sink, N: Sink, H: Shelf>(
    performer: &K,
    alloc: Global,
    policy: Policy,
    limit: u64,
    input: &mut S,
    output: &mut T,
    notes: &mut N,
    shelf: &mut H,
) -> Result<ItemTotals, Outcome>
    requires limit { limit ≤ 2 ^ 40 }
    ensures reaches { Reaches (plan_of (K.task performer.now) (K.texts performer.now) policy) limit result
        (S.left input.old) (S.left input.new)
        (outside (world (T.contents output.old) (H.contents shelf.old)) (N.contents notes.old))
        (outside (world (T.contents output.new) (H.contents shelf.new)) (N.contents notes.new)) }
    ensures counts { CountsOne (outcome_of result)
        (faults (S.faults input.old) (T.faults output.old) (N.faults notes.old) (H.faults shelf.old))
        (faults (S.faults input.new) (T.faults output.new) (N.faults notes.new) (H.faults shelf.new)) }
    ensures soon { policy ≡ nothing → RefusesSoon (K.hears performer.now) (K.task performer.now) (outcome_of result)
        (S.left input.old) (S.left input.new) }
    ensures unfinished { Unfinished (T.settled output.old) (T.settled output.new) }
    ensures notes_unfinished { Unfinished (N.settled notes.old) (N.settled notes.new) }
    ensures shelf { K.uses_shelf performer.now ≡ false → shelf.new ≡ shelf.old }
    ensures unshelved { K.uses_shelf performer.now ≡ false → outcome_of result ≢ ShelfFault }
    ensures before_end { IfErr result (λ outcome. is_whole outcome ≡ false) }
{
    let mut window = Window::new(alloc);
    let mut totals = none_counted();
    let mut place = 0u64;
    let mut left = limit;
    let mut rest = Rest::Open;
    'items: loop {
        let passed = octets_before_mark(window.as_slice());
        window.pass(passed);
        place += passed as u64;
        totals.counted.skipped += passed as u64;
        let more = may_go_on(&rest);
        let octets = window.as_slice();
        let turn = decide(
            performer, alloc, policy, &totals, place, more, octets, output, notes, shelf,
        )?;
        let wait = match turn {
            Turn::Goes(gone) => {
                window.pass(gone.octets as usize);
                place += gone.octets;
                totals = gone.totals;
                continue 'items;
            }
            Turn::Waits(wait) => wait,
        };
        if !more {
            totals.counted.skipped += window.len() as u64;
            return Ok(totals);
        }
        pass_on(output)?;
        if wait.heard {
            let gone = hear_item(
                performer,
                alloc,
                &totals,
                place,
                &mut window,
                input,
                output,
                &mut left,
            )?;
            place += gone.octets;
            totals = gone.totals;
            continue 'items;
        }
        rest = advance(&rest, &mut window, input, wait.wanted, &mut left)?;
    }
}

/// Nothing was counted yet.
fn none_counted() -> ItemTotals
    ensures { result ≡ totals_by no_counts 0 }
{
    ItemTotals {
        counted: Totals {
            messages: 0,
            fields: 0,
            skipped: 0,
            written: 0,
        },
        refused: 0,
        kept: 0,
    }
}

/// Whether more octets may follow, as far as is known.
fn may_go_on(rest: &Rest) -> bool
    ensures { result ≡ goes_on rest.now }
{
    !matches!(rest, Rest::Ended)
}

/// Reads as much as is needed, as far as the input goes and as much may be taken. Where no more may be taken, it finds
/// out whether the input is at its end.
fn advance<S: Source>(
    rest: &Rest,
    window: &mut Window,
    input: &mut S,
    wanted: u64,
    left: &mut u64,
) -> Result<Rest, Outcome>
    requires few { length window.old.octets < wanted }
    ensures advances { Advances rest.now result (S.left input.old) (S.left input.new)
        window.old.octets window.new.octets left.old left.new wanted (S.faults input.old) (S.faults input.new) }
    ensures short { length window.new.octets ≤ max wanted 65536 }
    ensures room { window.new.room ≤ max window.old.room (wanted + 65536) }
{
    match rest {
        Rest::Open => read_on(window, input, wanted, left),
        Rest::Full | Rest::Ended => {
            probe(input)?;
            Ok(Rest::Ended)
        }
    }
}
