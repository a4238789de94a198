//! Commands that write what is made of messages of edition 2.

ghost use Rattle.std.specs.Prelude.{ℕ, List};
ghost use Rattle.grib_stream.specs.Task.{Given};
ghost use Rattle.grib_stream.specs.declared.place.Place.{Place as AtPlace};
ghost use Rattle.grib_command.specs.Answering.{AnswersByOutput};
ghost use Rattle.grib_command.specs.Command as commands;
ghost use Rattle.grib_command.specs.Command.{IsLawfulCommand};

use grib_command::{Answered, Ending, Writer, unreadable};
use grib_io::Sink;
use grib_stream::{Cause, Place};
use grib1_sections::Message1;
use grib2_arrival::Arrival;
use grib2_message::{Message, ReadableMessage};
use std::alloc::Global;

/// Makes something else of messages of edition 2.
pub trait Changer {
    /// What a message at a place gives.
    ghost gives: { Self → AtPlace → List ℕ → Given };

    /// Writes what is made of a message, or leaves it unchanged, wherever it stands.
    fn change<T: Sink>(&self, alloc: Global, message: &Message<'_>, output: &mut T) -> Answered
        ensures { (place : AtPlace) → AnswersByOutput T.contents T.faults T.settled result place.message
            (gives self.now place message.now) output.old output.new };

    ghost lawful: { (changer : Self) → IsLawfulCommand (commands.changing (gives changer)) };
}

/// Makes something else of messages of edition 2 whose values can be read.
pub trait ValueChanger {
    /// What such a message at a place gives.
    ghost gives: { Self → AtPlace → List ℕ → Given };

    /// Writes what is made of a message, or leaves it unchanged, wherever it stands.
    fn change_values<T: Sink>(
        &self,
        alloc: Global,
        message: &ReadableMessage<'_>,
        output: &mut T,
    ) -> Answered
        ensures { (place : AtPlace) → AnswersByOutput T.contents T.faults T.settled result place.message
            (gives self.now place message.now) output.old output.new };

    ghost lawful: { (changer : Self) → IsLawfulCommand (commands.changing (commands.of_values (gives changer))) };
}

/// What changes messages by their values. A message whose values cannot be read is not changed.
#[derive(Debug, Drop)]
pub struct OfValues<C>(pub C);

impl<C: ValueChanger> Changer for OfValues<C> {
    ghost gives = { λ of_values. commands.of_values (C.gives of_values.0) };

    ghost lawful = { λ of_values. C.lawful of_values.0 };

    fn change<T: Sink>(&self, alloc: Global, message: &Message<'_>, output: &mut T) -> Answered {
        match ReadableMessage::of(message) {
            Ok(message) => self.0.change_values(alloc, &message, output),
            Err(opaque) => unreadable(opaque),
        }
    }
}

/// The command of what changes messages of edition 2. Those of edition 1 are not changed.
#[derive(Debug, Drop)]
pub struct Changing<C>(pub C);

impl<C: Changer> Writer for Changing<C> {
    ghost use Rattle.std.specs.Prelude.{refl};
    ghost use Rattle.grib_command.specs.Command.{changing};

    ghost definition = { λ changing_by. changing (C.gives changing_by.0) };

    ghost lawful = { λ changing_by. C.lawful changing_by.0 };

    ghost unshelved = { λ changing_by. refl };

    fn first<T: Sink>(
        &self,
        _alloc: Global,
        _place: &Place,
        _message: &Message1<'_>,
        _output: &mut T,
    ) -> Answered {
        Answered::Kept(Cause::EditionOne)
    }

    fn second<T: Sink>(
        &self,
        alloc: Global,
        _place: &Place,
        message: &Message<'_>,
        output: &mut T,
    ) -> Answered {
        self.0.change(alloc, message, output)
    }

    /// No message is judged incrementally.
    fn hears(&self) -> bool {
        false
    }

    fn heard<T: Sink>(
        &self,
        _alloc: Global,
        _place: &Place,
        _arrival: &Arrival,
        _output: &mut T,
    ) -> Answered {
        Answered::Memory
    }

    fn ending(&self) -> Ending {
        Ending::Written
    }
}
