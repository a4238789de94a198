//! What answers the messages of an input.

ghost use Rattle.std.specs.Prelude.{◌≡◌, ◌≢◌, ℕ, ◌≤◌, ◌<◌, ◌+◌, ◌^◌, Bool, true, false, Option, List, [], ◌++◌, length, take, Err, OnOk, OnErr, IfOk, IfErr};
ghost use Rattle.grib_io.specs.Outside.{Counted, Unfinished};
ghost use Rattle.grib_io.specs.Shelves.{Held};
ghost use Rattle.grib_stream.specs.Stream.{begins, Judgement, Message};
ghost use Rattle.grib_stream.specs.Acts.{world, Did, DidFront};
ghost use Rattle.grib_stream.specs.Task.{Task, IsLawful, next_of};
ghost use Rattle.grib_stream.specs.Outcomes.{is_cut_short};
ghost use Rattle.grib_stream.specs.Performed.{Performs, performed_of};
ghost use Rattle.grib_stream.specs.Texts.{Texts, States};
ghost use Rattle.grib_stream.specs.declared.performer.Performed.TheVariants.{Ends};
ghost use Rattle.grib_stream.specs.declared.outcome.Outcome.TheVariants.{WriteFault, ShelfFault};

use crate::hearing::Hearer;
use crate::outcome::Outcome;
use crate::place::{Place, Totals};
use grib_base::Fault;
use grib_io::{Shelf, Sink};
use grib_reasons::Kept;
use std::alloc::{AllocError, Global};

/// A message that was answered: its octets, its fields, and the octets of its result as far as they are
/// counted.
#[derive(Clone, Copy, Debug, PartialEq, Eq)]
pub struct Whole {
    pub octets: u64,
    pub fields: u64,
    pub written: u64,
}

/// The octets and the fields of a message.
#[derive(Clone, Copy, Debug, PartialEq, Eq)]
pub struct Extent {
    pub octets: u64,
    pub fields: u64,
}

/// What came of the octets from a `GRIB` on.
#[derive(Clone, Copy, Debug, PartialEq, Eq)]
pub enum Performed {
    /// They begin with a message, whose result is done whole.
    Whole(Whole),
    /// They are refused. Nothing was done.
    Refused(Fault),
    /// The run ends before the message or within its result.
    Ends(Outcome),
}

/// Answers the messages of an input, one after another, and says what a run has to know to skip those that are
/// refused or not changed. What is to be done is a `Task`, which a run knows only as far as its laws go.
pub trait Performer {
    ghost use Rattle.grib_stream.specs.Performed.{Performs, performed_of};

    /// What judges the messages that are judged incrementally.
    type Hearer: Hearer;

    /// What is to be done.
    ghost task: { Self → Task };

    /// The lines that are noted of what is refused or not changed.
    ghost texts: { Self → Texts };

    /// Whether the shelf is used. Else it does not change, and the run does not end with its fault.
    ghost uses_shelf: { Self → Bool };

    /// Whether a message that begins with these eight octets is judged incrementally, so that it need not be held whole.
    ghost hears: { Self → List ℕ → Bool };

    /// By what such messages are judged.
    ghost judges: { Self → List ℕ → Judgement };

    /// Whether the message that begins with these octets, eight at least, is judged incrementally.
    fn is_heard(&self, octets: &[u8]) -> bool
        requires { 8 ≤ length octets.now }
        ensures { result ≡ hears self.now (take 8 octets.now) };

    /// What is to judge a message incrementally, and has taken nothing yet.
    fn hear(&self, alloc: Global) -> Self::Hearer
        ensures { Self.Hearer.heard (judges self.now) result [] };

    /// Answers the message that these octets begin with, which begin with `GRIB`.
    fn perform<T: Sink, H: Shelf>(
        &self,
        alloc: Global,
        place: &Place,
        octets: &[u8],
        output: &mut T,
        shelf: &mut H,
    ) -> Performed
        requires begun { begins octets.now ≡ true }
        requires message { place.now.message ≤ 2 ^ 41 }
        requires before { place.now.before ≤ 2 ^ 41 }
        requires fields { place.now.fields ≤ 2 ^ 41 }
        ensures performs { Performs (next_of (task self.now) place.now octets.now) result
            (world (T.contents output.old) (H.contents shelf.old))
            (world (T.contents output.new) (H.contents shelf.new)) }
        ensures write_fault { result ≡ Ends WriteFault
            → Counted (T.faults output.old) (T.faults output.new) }
        ensures write_calm { result ≢ Ends WriteFault → T.faults output.new ≡ T.faults output.old }
        ensures unfinished { Unfinished (T.settled output.old) (T.settled output.new) }
        ensures shelf_fault { result ≡ Ends ShelfFault
            → Counted (H.faults shelf.old) (H.faults shelf.new) }
        ensures shelf_calm { result ≢ Ends ShelfFault → H.faults shelf.new ≡ H.faults shelf.old }
        ensures shelf { uses_shelf self.now ≡ false → shelf.new ≡ shelf.old }
        ensures unshelved { uses_shelf self.now ≡ false → result ≢ Ends ShelfFault };

    /// Answers a message that was judged incrementally and is whole, by the output alone.
    fn perform_heard<T: Sink>(
        &self,
        alloc: Global,
        place: &Place,
        hearer: &Self::Hearer,
        output: &mut T,
    ) -> Result<Whole, Outcome>
        requires whole { (octets : List ℕ) × Self.Hearer.heard (judges self.now) hearer.now octets
            × (judges self.now octets ≡ Message (length octets)) }
        requires message { place.now.message ≤ 2 ^ 41 }
        requires before { place.now.before ≤ 2 ^ 41 }
        requires fields { place.now.fields ≤ 2 ^ 41 }
        ensures performs { (octets more : List ℕ) (names : Option Held) → Self.Hearer.heard (judges self.now) hearer.now octets
            → hears self.now (take 8 (octets ++ more)) ≡ true → (task self.now).judge octets ≡ Message (length octets)
            → Performs (next_of (task self.now) place.now octets) (performed_of result)
            (world (T.contents output.old) names) (world (T.contents output.new) names) }
        ensures write_fault { result ≡ Err WriteFault
            → Counted (T.faults output.old) (T.faults output.new) }
        ensures write_calm { result ≢ Err WriteFault → T.faults output.new ≡ T.faults output.old }
        ensures unfinished { Unfinished (T.settled output.old) (T.settled output.new) }
        ensures unshelved { result ≢ Err ShelfFault };

    /// The octets and the fields of the message that these octets begin with.
    fn whole(&self, alloc: Global, octets: &[u8]) -> Result<Extent, AllocError>
        requires begun { begins octets.now ≡ true }
        requires accepted { (total : ℕ) × ((task self.now).judge octets.now ≡ Message total) }
        ensures octets { IfOk result (λ extent. (task self.now).judge octets.now ≡ Message extent.octets) }
        ensures fields { IfOk result (λ extent. (task self.now).fields (take extent.octets octets.now) ≡ extent.fields) };

    /// The line that is noted of a refusal, whose octets are copied or not.
    fn refused_line(
        &self,
        alloc: Global,
        copied: bool,
        place: &Place,
        fault: &Fault,
    ) -> Result<Vec<u8>, AllocError>
        ensures { IfOk result (λ line. line.items ≡ (texts self.now).refused copied place.now fault.now) };

    /// The line that is noted of a message that is not changed.
    fn kept_line(&self, alloc: Global, place: &Place, kept: &Kept) -> Result<Vec<u8>, AllocError>
        ensures { IfOk result (λ line. line.items ≡ (texts self.now).kept place.now kept.now) };

    /// Does what is to be done at the end of the input, by the output alone.
    fn finish<T: Sink>(&self, alloc: Global, totals: &Totals, output: &mut T) -> Result<(), Outcome>
        ensures done { OnOk result ((names : Option Held) → Did (world (T.contents output.old) names)
            (world (T.contents output.new) names) ((task self.now).ending totals.now).acts) }
        ensures front { OnErr result ((names : Option Held) → DidFront (world (T.contents output.old) names)
            (world (T.contents output.new) names) ((task self.now).ending totals.now).acts) }
        ensures cut { IfErr result (λ outcome. is_cut_short outcome ≡ true) }
        ensures write_fault { IfErr result (λ outcome. outcome ≡ WriteFault
            → Counted (T.faults output.old) (T.faults output.new)) }
        ensures write_calm { IfErr result (λ outcome. outcome ≢ WriteFault
            → T.faults output.new ≡ T.faults output.old) }
        ensures calm { OnOk result (T.faults output.new ≡ T.faults output.old) }
        ensures unfinished { Unfinished (T.settled output.old) (T.settled output.new) };

    /// An accepted length is the one that is stated.
    ghost states: { (performer : Self) (octets : List ℕ) (total : ℕ) → (task performer).judge octets ≡ Message total → States octets total };

    ghost lawful: { (performer : Self) → IsLawful (task performer) };

    /// Of a message that is judged incrementally, the hearer judges each prefix as the task does.
    ghost alike: { (performer : Self) (octets more : List ℕ) → hears performer (take 8 (octets ++ more)) ≡ true
        → (Self.Hearer.hears (take 8 (octets ++ more)) ≡ true) × ((task performer).judge octets ≡ judges performer octets) };
}
