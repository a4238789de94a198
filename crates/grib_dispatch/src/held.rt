//! A message of either edition, answered by any command.

ghost use Rattle.std.specs.Prelude.{◌≤◌, ◌^◌};
ghost use Rattle.grib_command.specs.Answering.{AnswersMessage};
ghost use Rattle.grib_command.specs.Command.{given};
ghost use Rattle.grib_dispatch.specs.Reading.{held_octets};

use crate::reading::Held;
use grib_command::{Answered, Answerer};
use grib_io::{Shelf, Sink};
use grib_stream::Place;
use std::alloc::Global;

/// Answers a message of either edition at this place.
pub fn answer_held<C: Answerer, T: Sink, H: Shelf>(
    answerer: &C,
    alloc: Global,
    place: &Place,
    held: &Held<'_>,
    output: &mut T,
    shelf: &mut H,
) -> Answered
    requires { place.now.fields ≤ 2 ^ 41 }
    ensures { AnswersMessage T.contents T.faults T.settled H.contents H.faults
        result place.now.message (given (C.definition answerer.now) place.now (held_octets held.now))
        (C.definition answerer.now).uses_shelf output.old output.new shelf.old shelf.new }
{
    match held {
        Held::One(message) => {
            message.octets();
            answerer.first(alloc, place, message, output, shelf)
        }
        Held::Two(message) => {
            message.octets();
            answerer.second(alloc, place, message, output, shelf)
        }
    }
}
