//! `repack to=least`: each message with each of its fields in the fewest octets.

use crate::changing::ValueChanger;
use grib_base::Profile;
use grib_command::{Answered, write_counted, written};
use grib_io::Sink;
use grib_least::repack_least;
use grib2_message::ReadableMessage;
use std::alloc::Global;

/// The command `repack to=least`.
#[derive(Clone, Copy, Debug)]
pub struct Shrinking {
    /// The profile whose packings are tried.
    pub profile: Profile,
}

impl ValueChanger for Shrinking {
    ghost use Rattle.grib_edit.specs.Least.{shrinking, least_lawful};

    ghost gives = { λ least. (shrinking least.profile).second };

    ghost lawful = { λ least. least_lawful least.profile };

    fn change_values<T: Sink>(
        &self,
        alloc: Global,
        message: &ReadableMessage<'_>,
        output: &mut T,
    ) -> Answered {
        match repack_least(alloc, message, self.profile) {
            Ok(octets) => written(write_counted(output, octets.as_slice())),
            Err(_) => Answered::Memory,
        }
    }
}
