//! `set`: each message with new values of some keys.

ghost use Rattle.std.specs.Prelude.{◌≡◌};
ghost use Rattle.grib_edit.specs.Unchanged.{answered_unset};
ghost use Rattle.grib_command.specs.Jobs.{CanChange};

use crate::changing::Changer;
use crate::dated::write_dated;
use grib_command::Answered;
use grib_dates::{Dates, is_valid_time2};
use grib_io::Sink;
use grib_select::{Change, SetFault, changed_front};
use grib_stream::Cause;
use grib2_message::Message;
use std::alloc::Global;

/// The command `set`.
#[derive(Debug, Drop)]
pub struct Setting<'a> {
    /// The keys with their new values.
    pub changes: &'a [Change],
    /// Which reference times a message may get.
    pub dates: Dates,
    pub ghost changes_stand: { CanChange changes.now },
}

impl Changer for Setting<'_> {
    ghost use Rattle.grib_edit.specs.Setting.{set_command, set_lawful};

    ghost gives = { λ setting. (set_command setting.dates setting.changes.now).second };

    ghost lawful = { λ setting. set_lawful setting.dates setting.changes.now setting.changes_stand };

    fn change<T: Sink>(&self, alloc: Global, message: &Message<'_>, output: &mut T) -> Answered {
        let octets = message.octets();
        match changed_front(alloc, message, self.changes) {
            Ok(changed) => {
                let front = changed.as_slice();
                let rest = &octets[front.len()..];
                write_dated(self.dates, is_valid_time2(front), front, rest, output)
            }
            Err(fault) => unset(fault),
        }
    }
}

/// What comes of a message in which no key is set.
fn unset(fault: SetFault) -> Answered
    ensures { result ≡ answered_unset fault }
{
    match fault {
        SetFault::KeyRange { key } => Answered::Kept(Cause::KeyRange { key }),
        SetFault::KeyAbsent { field, key } => Answered::Kept(Cause::KeyAbsent { field, key }),
        SetFault::Memory => Answered::Memory,
    }
}
