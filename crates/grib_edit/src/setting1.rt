//! `set` of keys of edition 1: each message of edition 1 with new values of some numbers of Section 1.

ghost use Rattle.std.specs.Prelude.{◌≡◌};
ghost use Rattle.grib_edit.specs.Unchanged.{answered_unset1};
ghost use Rattle.grib_command.specs.Jobs.{CanChange1};

use crate::dated::write_dated;
use grib_command::{Answered, Ending, Writer};
use grib_dates::{Dates, is_valid_time1};
use grib_io::Sink;
use grib_stream::{Cause, Place};
use grib1_sections::Message1;
use grib1_select::{Change1, SetFault1, set_keys1};
use grib2_arrival::Arrival;
use grib2_message::Message;
use std::alloc::Global;

/// The command `set` of keys of edition 1.
#[derive(Debug, Drop)]
pub struct Setting1<'a> {
    /// The keys with their new values.
    pub changes: &'a [Change1],
    /// Which reference times a message may get.
    pub dates: Dates,
    pub ghost changes_stand: { CanChange1 changes.now },
}

impl Writer for Setting1<'_> {
    ghost use Rattle.std.specs.Prelude.{refl};
    ghost use Rattle.grib_edit.specs.Setting1.{set1_command, set1_lawful};

    ghost definition = { λ setting. set1_command setting.dates setting.changes.now };

    ghost lawful = { λ setting. set1_lawful setting.dates setting.changes.now setting.changes_stand };

    ghost unshelved = { λ setting. refl };

    fn first<T: Sink>(
        &self,
        alloc: Global,
        _place: &Place,
        message: &Message1<'_>,
        output: &mut T,
    ) -> Answered {
        // That the message is accepted bounds the changed one.
        let _accepted = message.octets();
        match set_keys1(alloc, message, self.changes) {
            Ok(changed) => {
                let octets = changed.as_slice();
                write_dated(self.dates, is_valid_time1(octets), octets, &[], output)
            }
            Err(fault) => unset1(fault),
        }
    }

    fn second<T: Sink>(
        &self,
        _alloc: Global,
        _place: &Place,
        _message: &Message<'_>,
        _output: &mut T,
    ) -> Answered {
        Answered::Kept(Cause::EditionTwo)
    }

    /// No message is judged incrementally.
    fn hears(&self) -> bool {
        false
    }

    fn heard<T: Sink>(
        &self,
        _alloc: Global,
        _place: &Place,
        _arrival: &Arrival,
        _output: &mut T,
    ) -> Answered {
        Answered::Memory
    }

    fn ending(&self) -> Ending {
        Ending::Written
    }
}

/// What comes of a message in which no number is set.
fn unset1(fault: SetFault1) -> Answered
    ensures { result ≡ answered_unset1 fault }
{
    match fault {
        SetFault1::KeyRange { key } => Answered::Kept(Cause::KeyRange1 { key }),
        SetFault1::Memory => Answered::Memory,
    }
}
