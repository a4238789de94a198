//! A run over an input.

ghost use Rattle.std.specs.Prelude.{◌≡◌, ◌≢◌, ◌≤◌, ◌^◌, false, IfErr};
ghost use Rattle.grib_io.specs.Outside.{Unfinished};
ghost use Rattle.grib_stream.specs.Acts.{world};
ghost use Rattle.grib_stream.specs.Faults.{faults};
ghost use Rattle.grib_stream.specs.Soon.{RefusesSoon};
ghost use Rattle.grib_stream.specs.declared.outcome.Outcome.TheVariants.{ShelfFault};
ghost use Rattle.grib_stream.specs.Outcomes.{is_whole};
ghost use Rattle.grib_items.specs.Deeds.{outside};
ghost use Rattle.grib_items.specs.Laws.{nothing, outcome_of};
ghost use Rattle.grib_items.specs.Run.{Runs, CountsOne};
ghost use Rattle.grib_items.specs.Steps.{plan_of};

use crate::policy::{ItemTotals, Policy};
use crate::running::answer_all;
use crate::writing::pass_on;
use grib_io::{Shelf, Sink, Source};
use grib_stream::{Outcome, Performer};
use std::alloc::Global;

/// Answers the items of an input, of which no more than `limit` octets are answered, and does what is to be done at its
/// end. Where octets are refused or a message cannot be changed, the run ends, or skips them and notes a line of each, as
/// `policy` says. It answers what was counted where the input was read to its end and all was done, and else how the
/// run ends. The answer is a function of the input alone. Before more of the input is asked for, the output is passed
/// on. A message is judged incrementally, so that it is not held whole, only where nothing is skipped: octets that are
/// refused may begin another. Else the buffer holds no more than a message states of its length, as far as Section 0
/// allows it, and one read.
pub fn answer_items<K: Performer, S: Source, T: Sink, N: Sink, H: Shelf>(
    performer: &K,
    alloc: Global,
    policy: Policy,
    limit: u64,
    input: &mut S,
    output: &mut T,
    notes: &mut N,
    shelf: &mut H,
) -> Result<ItemTotals, Outcome>
    requires limit { limit ≤ 2 ^ 40 }
    ensures runs { Runs (plan_of (K.task performer.now) (K.texts performer.now) policy) limit result
        (S.left input.old) (S.left input.new)
        (outside (world (T.contents output.old) (H.contents shelf.old)) (N.contents notes.old))
        (outside (world (T.contents output.new) (H.contents shelf.new)) (N.contents notes.new)) }
    ensures counts { CountsOne (outcome_of result)
        (faults (S.faults input.old) (T.faults output.old) (N.faults notes.old) (H.faults shelf.old))
        (faults (S.faults input.new) (T.faults output.new) (N.faults notes.new) (H.faults shelf.new)) }
    ensures soon { policy ≡ nothing → RefusesSoon (K.hears performer.now) (K.task performer.now) (outcome_of result)
        (S.left input.old) (S.left input.new) }

    // Nothing of the output or of the notes is finished before the close of a run, after a fault neither.
    ensures unfinished { Unfinished (T.settled output.old) (T.settled output.new) }
    ensures notes_unfinished { Unfinished (N.settled notes.old) (N.settled notes.new) }
    ensures shelf { K.uses_shelf performer.now ≡ false → shelf.new ≡ shelf.old }
    ensures unshelved { K.uses_shelf performer.now ≡ false → outcome_of result ≢ ShelfFault }
    ensures before_end { IfErr result (λ outcome. is_whole outcome ≡ false) }
{
    let totals = answer_all(performer, alloc, policy, limit, input, output, notes, shelf)?;
    performer.finish(alloc, &totals.counted, output)?;
    pass_on(output)?;
    Ok(totals)
}
