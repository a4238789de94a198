//! `migrate`: each message of edition 1 as one of edition 2.

ghost use Rattle.std.specs.Prelude.{◌≡◌, true};
ghost use Rattle.grib_edit.specs.Unchanged.{answered_lost};
ghost use Rattle.grib_edit.specs.Migrating.{are_octets};

use grib_command::{Answered, Ending, Writer, write_counted, written};
use grib_io::Sink;
use grib_migrate::{Local, MigrateFault, migrate_with};
use grib_params::{SurfaceTable, Table};
use grib_stream::{Cause, Place};
use grib1_sections::Message1;
use grib2_arrival::Arrival;
use grib2_message::Message;
use std::alloc::Global;

/// The command `migrate`.
#[derive(Debug, Drop)]
pub struct Migrating<'a> {
    /// What the parameters of edition 1 are in edition 2.
    pub table: &'a Table,
    /// What those are, with their surfaces, whose name says their level.
    pub surfaces: &'a SurfaceTable,
    /// What becomes of the octets for local use.
    pub local: Local,
}

impl Writer for Migrating<'_> {
    ghost use Rattle.std.specs.Prelude.{refl};
    ghost use Rattle.grib_edit.specs.Migrating.{migrate_command, migrate_lawful};

    ghost definition = { λ migrating. migrate_command migrating.local migrating.table.now migrating.surfaces.now };

    ghost lawful = { λ migrating. migrate_lawful migrating.local migrating.table.now migrating.surfaces.now };

    ghost unshelved = { λ migrating. refl };

    fn first<T: Sink>(
        &self,
        alloc: Global,
        _place: &Place,
        message: &Message1<'_>,
        output: &mut T,
    ) -> Answered {
        has_octets(message);
        match migrate_with(alloc, message, self.table, self.surfaces, self.local) {
            Ok(octets) => written(write_counted(output, octets.as_slice())),
            Err(fault) => kept_by(fault),
        }
    }

    fn second<T: Sink>(
        &self,
        _alloc: Global,
        _place: &Place,
        message: &Message<'_>,
        output: &mut T,
    ) -> Answered {
        written(write_counted(output, message.octets()))
    }

    /// No message is judged incrementally.
    fn hears(&self) -> bool {
        false
    }

    fn heard<T: Sink>(
        &self,
        _alloc: Global,
        _place: &Place,
        _arrival: &Arrival,
        _output: &mut T,
    ) -> Answered {
        Answered::Memory
    }

    fn ending(&self) -> Ending {
        Ending::Written
    }
}

/// A message is of octets.
fn has_octets(message: &Message1<'_>)
    ensures { are_octets message.now ≡ true }
{
    let octets = message.octets();
    of_octets(octets);
}

/// Octets are less than 256.
fn of_octets(octets: &[u8])
    ensures { are_octets octets.now ≡ true }
{
    let _octets = octets;
}

/// What comes of a message that is not migrated.
fn kept_by(fault: MigrateFault) -> Answered
    ensures { result ≡ answered_lost fault }
{
    match fault {
        MigrateFault::Lost(loss) => Answered::Kept(Cause::Lost(loss)),
        MigrateFault::Memory => Answered::Memory,
    }
}
