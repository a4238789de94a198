//! `repack`: each message with its fields packed anew.

ghost use Rattle.std.specs.Prelude.{◌≡◌, true};
ghost use Rattle.grib_edit.specs.Unchanged.{answered_by};
ghost use Rattle.grib_command.specs.Jobs.{is_target};

use crate::changing::ValueChanger;
use grib_command::{Answered, write_counted, written};
use grib_io::Sink;
use grib_repack::{RepackFault, RepackTarget, repack};
use grib_stream::Cause;
use grib2_message::ReadableMessage;
use std::alloc::Global;

/// The command `repack`.
#[derive(Clone, Copy, Debug)]
pub struct Repacking {
    /// What fields are packed to.
    pub target: RepackTarget,
    pub ghost target_stands: { is_target target ≡ true },
}

impl ValueChanger for Repacking {
    ghost use Rattle.grib_edit.specs.Repacking.{repacking, repack_lawful};

    ghost gives = { λ repacking_by. (repacking repacking_by.target).second };

    ghost lawful = { λ repacking. repack_lawful repacking.target };

    fn change_values<T: Sink>(
        &self,
        alloc: Global,
        message: &ReadableMessage<'_>,
        output: &mut T,
    ) -> Answered {
        match repack(alloc, message, self.target) {
            Ok(packed) => written(write_counted(output, packed.as_slice())),
            Err(fault) => kept_by(fault),
        }
    }
}

/// What comes of a message that is not repacked.
fn kept_by(fault: RepackFault) -> Answered
    ensures { result ≡ answered_by fault }
{
    match fault {
        RepackFault::SecondaryMissing { field, point } => {
            Answered::Kept(Cause::SecondaryMissing { field, point })
        }
        RepackFault::OutOfRange { field, point } => {
            Answered::Kept(Cause::OutOfRange { field, point })
        }
        RepackFault::DifferenceRange { field } => {
            Answered::Kept(Cause::DifferenceRange { field })
        }
        RepackFault::OutputTooLong(length) => Answered::Kept(Cause::OutputTooLong(length)),
        RepackFault::Memory => Answered::Memory,
    }
}
