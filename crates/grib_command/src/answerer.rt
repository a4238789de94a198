//! What answers the messages of an input as a command says.

ghost use Rattle.std.specs.Prelude.{◌≡◌, ℕ, ◌≤◌, ◌^◌, true, false, List, length};
ghost use Rattle.grib2_sections.specs.Verdict.{Accepted};
ghost use Rattle.grib_base.specs.declared.profile.Profile.{Profile};
ghost use Rattle.grib2_message.specs.Acceptance.{verdict_under};
ghost use Rattle.grib2_arrival.specs.Heard.{HeardUnder};
ghost use Rattle.grib_command.specs.Answering.{AnswersMessage, AnswersByOutput};
ghost use Rattle.grib_command.specs.Command.{Command, IsLawfulCommand};

use crate::answered::Answered;
use crate::ending::Ending;
use grib_io::{Shelf, Sink};
use grib_stream::Place;
use grib1_sections::Message1;
use grib2_arrival::Arrival;
use grib2_message::Message;
use std::alloc::Global;

/// Answers messages by the output or by the shelf. After a fault or without memory some front of a result was
/// done.
pub trait Answerer {
    /// The command.
    ghost definition: { Self → Command };

    /// Answers a message of edition 1 at this place.
    fn first<T: Sink, H: Shelf>(
        &self,
        alloc: Global,
        place: &Place,
        message: &Message1<'_>,
        output: &mut T,
        shelf: &mut H,
    ) -> Answered
        requires { place.now.fields ≤ 2 ^ 41 }
        ensures { AnswersMessage T.contents T.faults T.settled H.contents H.faults
            result place.now.message ((definition self.now).first place.now message.now)
            (definition self.now).uses_shelf output.old output.new shelf.old shelf.new };

    /// Answers a message of edition 2 at this place.
    fn second<T: Sink, H: Shelf>(
        &self,
        alloc: Global,
        place: &Place,
        message: &Message<'_>,
        output: &mut T,
        shelf: &mut H,
    ) -> Answered
        requires { place.now.fields ≤ 2 ^ 41 }
        ensures { AnswersMessage T.contents T.faults T.settled H.contents H.faults
            result place.now.message ((definition self.now).second place.now message.now)
            (definition self.now).uses_shelf output.old output.new shelf.old shelf.new };

    /// Whether messages of edition 2 are answered by what was heard of them.
    fn hears(&self) -> bool
        ensures { result ≡ (definition self.now).hears };

    /// Answers a message of edition 2 at this place, which was heard whole, by the output alone. Of a command that hears
    /// none nothing is said.
    fn heard<T: Sink>(
        &self,
        alloc: Global,
        place: &Place,
        arrival: &Arrival,
        output: &mut T,
    ) -> Answered
        requires whole { (profile : Profile) × (octets : List ℕ) × HeardUnder profile arrival.now octets
            × (verdict_under profile octets ≡ Accepted (length octets)) }
        ensures { (definition self.now).hears ≡ true
            → (profile : Profile) (octets : List ℕ) → HeardUnder profile arrival.now octets
            → verdict_under profile octets ≡ Accepted (length octets)
            → AnswersByOutput T.contents T.faults T.settled result place.now.message
            ((definition self.now).second place.now octets) output.old output.new };

    /// What is printed and noted at the end of the input.
    fn ending(&self) -> Ending
        ensures { result ≡ (definition self.now).ending };

    ghost lawful: { (answerer : Self) → IsLawfulCommand (definition answerer) };
}

/// Answers messages by the output alone.
pub trait Writer {
    /// The command.
    ghost definition: { Self → Command };

    /// Answers a message of edition 1 at this place.
    fn first<T: Sink>(
        &self,
        alloc: Global,
        place: &Place,
        message: &Message1<'_>,
        output: &mut T,
    ) -> Answered
        ensures { AnswersByOutput T.contents T.faults T.settled result place.now.message
            ((definition self.now).first place.now message.now) output.old output.new };

    /// Answers a message of edition 2 at this place.
    fn second<T: Sink>(
        &self,
        alloc: Global,
        place: &Place,
        message: &Message<'_>,
        output: &mut T,
    ) -> Answered
        ensures { AnswersByOutput T.contents T.faults T.settled result place.now.message
            ((definition self.now).second place.now message.now) output.old output.new };

    /// Whether messages of edition 2 are answered by what was heard of them.
    fn hears(&self) -> bool
        ensures { result ≡ (definition self.now).hears };

    /// Answers a message of edition 2 at this place, which was heard whole, by the output alone. Of a command that hears
    /// none nothing is said.
    fn heard<T: Sink>(
        &self,
        alloc: Global,
        place: &Place,
        arrival: &Arrival,
        output: &mut T,
    ) -> Answered
        requires whole { (profile : Profile) × (octets : List ℕ) × HeardUnder profile arrival.now octets
            × (verdict_under profile octets ≡ Accepted (length octets)) }
        ensures { (definition self.now).hears ≡ true
            → (profile : Profile) (octets : List ℕ) → HeardUnder profile arrival.now octets
            → verdict_under profile octets ≡ Accepted (length octets)
            → AnswersByOutput T.contents T.faults T.settled result place.now.message
            ((definition self.now).second place.now octets) output.old output.new };

    /// What is printed and noted at the end of the input.
    fn ending(&self) -> Ending
        ensures { result ≡ (definition self.now).ending };

    ghost lawful: { (writer : Self) → IsLawfulCommand (definition writer) };

    ghost unshelved: { (writer : Self) → (definition writer).uses_shelf ≡ false };
}

/// A writer, beside which the shelf stays as it is.
#[derive(Debug, Drop)]
pub struct ByOutput<W>(pub W);

impl<W: Writer> Answerer for ByOutput<W> {
    ghost definition = { λ answerer. W.definition answerer.0 };

    ghost lawful = { λ answerer. W.lawful answerer.0 };

    fn first<T: Sink, H: Shelf>(
        &self,
        alloc: Global,
        place: &Place,
        message: &Message1<'_>,
        output: &mut T,
        _shelf: &mut H,
    ) -> Answered {
        self.0.first(alloc, place, message, output)
    }

    fn second<T: Sink, H: Shelf>(
        &self,
        alloc: Global,
        place: &Place,
        message: &Message<'_>,
        output: &mut T,
        _shelf: &mut H,
    ) -> Answered {
        self.0.second(alloc, place, message, output)
    }

    fn hears(&self) -> bool {
        self.0.hears()
    }

    fn heard<T: Sink>(
        &self,
        alloc: Global,
        place: &Place,
        arrival: &Arrival,
        output: &mut T,
    ) -> Answered {
        self.0.heard(alloc, place, arrival, output)
    }

    fn ending(&self) -> Ending {
        self.0.ending()
    }
}
