//! `rescan` and `crop`: each message in the order of scanning octet 0, or a subarea of its grids.

ghost use Rattle.std.specs.Prelude.{◌≡◌};
ghost use Rattle.grib_reorder.specs.Rescanned.{Stands};
ghost use Rattle.grib_edit.specs.Rescanning.{answered_unedited, Stands-prop};

use crate::changing::ValueChanger;
use grib_command::{Answered, write_counted, written};
use grib_io::Sink;
use grib_reorder::{GridEdit, RescanFault, edit_message};
use grib_stream::Cause;
use grib2_message::ReadableMessage;
use std::alloc::Global;

/// The commands `rescan` and `crop`.
#[derive(Clone, Copy, Debug)]
pub struct Rescanning {
    /// What is made of each grid.
    pub edit: GridEdit,
    pub ghost edit_stands: { Stands edit } by { Stands-prop edit },
}

impl ValueChanger for Rescanning {
    ghost use Rattle.grib_edit.specs.Rescanning.{editing, edit_lawful};

    ghost gives = { λ rescanning. (editing rescanning.edit).second };

    ghost lawful = { λ rescanning. edit_lawful rescanning.edit };

    fn change_values<T: Sink>(
        &self,
        alloc: Global,
        message: &ReadableMessage<'_>,
        output: &mut T,
    ) -> Answered {
        match edit_message(alloc, message, &self.edit) {
            Ok(edited) => written(write_counted(output, edited.as_slice())),
            Err(fault) => unedited(fault),
        }
    }
}

/// What comes of a message that is not edited.
fn unedited(fault: RescanFault) -> Answered
    ensures { result ≡ answered_unedited fault }
{
    match fault {
        RescanFault::GridKind { field } => Answered::Kept(Cause::GridKind { field }),
        RescanFault::ScanMode { field } => Answered::Kept(Cause::ScanMode { field }),
        RescanFault::OutsideBox { field } => Answered::Kept(Cause::OutsideBox { field }),
        RescanFault::Increments { field } => Answered::Kept(Cause::Increments { field }),
        RescanFault::OutOfRange { field, point } => {
            Answered::Kept(Cause::OutOfRange { field, point })
        }
        RescanFault::DifferenceRange { field } => {
            Answered::Kept(Cause::DifferenceRange { field })
        }
        RescanFault::OutputTooLong(length) => Answered::Kept(Cause::OutputTooLong(length)),
        RescanFault::Memory => Answered::Memory,
    }
}
