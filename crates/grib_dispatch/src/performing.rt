//! A command as what answers the messages of an input, and says how it skips what is refused or not changed.

use crate::counting::counted;
use crate::hearing::{SecondHearer, heard};
use crate::held::answer_held;
use crate::reading::read_held;
use grib_base::{Fault, Profile, ReadFault};
use grib_command::{Answered, Answerer, copied_line, kept_line};
use grib_io::{Shelf, Sink, Stop};
use grib_stream::{Extent, Kept, Outcome, Performed, Performer, Place, Totals, Whole};
use grib_text::refused_line;
use grib2_arrival::Arrival;
use std::alloc::{AllocError, Global};

/// What is to answer the messages of an input.
#[derive(Debug, Drop)]
pub struct Answering<'a, C> {
    pub answerer: &'a C,
    /// By which messages of edition 2 are accepted.
    pub profile: Profile,
}

impl<C: Answerer> Performer for Answering<'_, C> {
    ghost use Rattle.grib_command.specs.Command as commands;
    ghost use Rattle.grib_command.specs.Texts as lines;
    ghost use Rattle.grib_command.specs.LawfulCommands as command_laws;
    ghost use Rattle.grib_dispatch.specs.Hearing.{hears_by, judge_2_under};
    ghost use Rattle.grib_dispatch.specs.Lawful as laws;
    ghost use Rattle.grib_dispatch.specs.HearingLaws as heard_laws;
    ghost use Rattle.grib_dispatch.specs.Stated as stated_laws;

    type Hearer = SecondHearer;

    ghost task = { λ answering. commands.task (commands.under answering.profile (C.definition answering.answerer.now)) };

    ghost texts = { λ answering. lines.texts };

    ghost uses_shelf = { λ answering. (C.definition answering.answerer.now).uses_shelf };

    ghost hears = { λ answering. hears_by (C.definition answering.answerer.now).hears };

    ghost states = { λ answering octets total is. stated_laws.states answering.profile octets total is };

    ghost lawful = { λ answering. laws.lawful (commands.under answering.profile (C.definition answering.answerer.now))
        (command_laws.under_lawful answering.profile (C.definition answering.answerer.now) (C.lawful answering.answerer.now)) };

    ghost alike = { λ answering. heard_laws.alike answering.profile (C.definition answering.answerer.now).hears };

    ghost judges = { λ answering. judge_2_under answering.profile };

    fn is_heard(&self, octets: &[u8]) -> bool {
        self.answerer.hears() && octets[..4] == [b'G', b'R', b'I', b'B'] && octets[7] == 2
    }

    fn hear(&self, alloc: Global) -> SecondHearer {
        SecondHearer {
            arrival: Arrival::new(alloc, self.profile),
        }
    }

    fn perform<T: Sink, H: Shelf>(
        &self,
        alloc: Global,
        place: &Place,
        octets: &[u8],
        output: &mut T,
        shelf: &mut H,
    ) -> Performed {
        let held = match read_held(alloc, self.profile, octets) {
            Ok(held) => held,
            Err(ReadFault::Refused(fault)) => return Performed::Refused(fault),
            Err(ReadFault::Memory) => return Performed::Ends(Outcome::Memory),
        };
        match answer_held(self.answerer, alloc, place, &held, output, shelf) {
            Answered::Whole(written) => Performed::Whole(counted(&held, written)),
            Answered::Kept(cause) => Performed::Ends(Outcome::Kept(Kept {
                message: place.message,
                cause,
            })),
            Answered::WriteFault => Performed::Ends(Outcome::WriteFault),
            Answered::ShelfFault => Performed::Ends(Outcome::ShelfFault),
            Answered::Memory => Performed::Ends(Outcome::Memory),
        }
    }

    /// A command that judges no message incrementally has taken nothing, and does nothing.
    fn perform_heard<T: Sink>(
        &self,
        alloc: Global,
        place: &Place,
        hearer: &SecondHearer,
        output: &mut T,
    ) -> Result<Whole, Outcome> {
        if !self.answerer.hears() {
            return Err(Outcome::Memory);
        }
        let arrival = &hearer.arrival;
        let octets = arrival.octets();
        let fields = arrival.fields();
        let answered = self.answerer.heard(alloc, place, arrival, output);
        heard(answered, place, octets, fields)
    }

    fn whole(&self, alloc: Global, octets: &[u8]) -> Result<Extent, AllocError> {
        match read_held(alloc, self.profile, octets) {
            Ok(held) => {
                let message = counted(&held, 0);
                Ok(Extent {
                    octets: message.octets,
                    fields: message.fields,
                })
            }
            Err(ReadFault::Memory) => Err(AllocError),
            Err(ReadFault::Refused(_)) => unreachable!(),
        }
    }

    fn refused_line(
        &self,
        alloc: Global,
        copied: bool,
        place: &Place,
        fault: &Fault,
    ) -> Result<Vec<u8>, AllocError> {
        if copied {
            copied_line(alloc, place.message, place.before, fault)
        } else {
            refused_line(alloc, place.message, place.before, fault)
        }
    }

    fn kept_line(&self, alloc: Global, place: &Place, kept: &Kept) -> Result<Vec<u8>, AllocError> {
        kept_line(alloc, kept, place.before)
    }

    fn finish<T: Sink>(
        &self,
        alloc: Global,
        totals: &Totals,
        output: &mut T,
    ) -> Result<(), Outcome> {
        match self.answerer.ending().write(alloc, totals, output) {
            Ok(()) => Ok(()),
            Err(Stop::Failed) => Err(Outcome::WriteFault),
            Err(Stop::Memory) => Err(Outcome::Memory),
        }
    }
}
