//! A message in another packing, and one of edition 1 as one of edition 2.

ghost use Rattle.std.specs.Prelude.{◌≡◌, ◌≤◌, ◌↔◌, IsTrue, MatchResult};
ghost use Rattle.grib_packing.specs.Written.{IsBlocks, IsTarget};
ghost use Rattle.grib_packing.specs.Targets.{target_of};
ghost use Rattle.grib_repack.specs.Repacked.{repacked, repack_misfit};
ghost use Rattle.grib2_message.specs.Fields.{field_count};
ghost use Rattle.grib2_message.specs.Message.{IsMessage};
ghost use Rattle.grib_select.specs.Single.{single_of};
ghost use Rattle.grib_dispatch.specs.declared.reading.Held.TheVariants.{Two};
ghost use Rattle.grib.specs.Changing.{IsRepacked, IsRepackError, IsMigrated, IsMigrateError};

use crate::Message;
use crate::readable::readable;
use grib_base::{Profile, ReadFault};
use grib_dispatch::Held;
use grib_migrate::{MigrateFault, migrate};
use grib_params::Table;
use grib_repack::{RepackFault, RepackTarget, repack};
use grib_select::laws::what_is_cut_out_keeps_its_column;
use grib_select::single;
use grib2_message::{Message as Message2, read_message};
use std::alloc::Global;
use thiserror::Error;

/// Why a message is not repacked.
#[derive(Clone, Copy, Debug, PartialEq, Eq, Error)]
pub enum RepackError {
    /// The message is of edition 1.
    #[error("the message is of edition 1")]
    EditionOne,
    /// No packing is asked: the order of the differences is not 1 or 2, a block has not 8, 16, 32 or 64 values, or there
    /// are not 1 to 4,096 blocks from one reference to the next.
    #[error("there is no such packing")]
    NoPacking,
    /// The first point or field that does not fit the packing, or there is no memory.
    #[error("{0}")]
    Misfit(RepackFault),
}

/// Why a message is not migrated.
#[derive(Clone, Copy, Debug, PartialEq, Eq, Error)]
pub enum MigrateError {
    /// The message is of edition 2.
    #[error("the message is of edition 2")]
    EditionTwo,
    /// What would be lost first, or there is no memory.
    #[error("{0}")]
    Loss(MigrateFault),
}

impl<'a> Message<'a> {
    /// The message in another packing: each point with its value, or missing as before. Sections 5, 6 and 7 of each field
    /// are written anew, and all other octets but the total length stay.
    ///
    /// # Errors
    ///
    /// The message is of edition 1; the target is none; a point or a field does not fit the packing; the message would
    /// have more than 268,435,456 octets; or there is no memory.
    pub fn repack(&self, alloc: Global, target: RepackTarget) -> Result<Vec<u8>, RepackError>
        ensures { MatchResult result (λ octets. IsRepacked target self.now octets.items) (IsRepackError target self.now) }
    {
        match self.held() {
            Held::One(_) => Err(RepackError::EditionOne),
            Held::Two(message) => repack_second(alloc, message, target),
        }
    }

    /// The message of edition 1 as one of edition 2 with the same values, and with the parameter that the table has for
    /// its own. Octets 41 and further of its Section 1, which are for local use, would be lost; the function `migrate`
    /// can copy them.
    ///
    /// # Errors
    ///
    /// The message is of edition 2; something of it would be lost; or there is no memory.
    pub fn migrate(&self, alloc: Global, table: &Table) -> Result<Vec<u8>, MigrateError>
        ensures { MatchResult result (λ octets. IsMigrated table.now self.now octets.items) (IsMigrateError table.now self.now) }
    {
        match self.held() {
            Held::One(message) => match migrate(alloc, message, table, false) {
                Ok(octets) => Ok(octets),
                Err(fault) => Err(MigrateError::Loss(fault)),
            },
            Held::Two(_) => Err(MigrateError::EditionTwo),
        }
    }
}

/// A message of edition 2 in another packing.
fn repack_second(
    alloc: Global,
    message: &Message2<'_>,
    target: RepackTarget,
) -> Result<Vec<u8>, RepackError>
    requires { IsMessage message.now }
    ensures { MatchResult result (λ octets. IsRepacked target (Two message.now) octets.items) (IsRepackError target (Two message.now)) }
{
    if !is_packing(target) {
        return Err(RepackError::NoPacking);
    }
    match repack(alloc, &readable(message), target) {
        Ok(octets) => Ok(octets),
        Err(fault) => Err(RepackError::Misfit(fault)),
    }
}

/// A field of a message of edition 2, alone in another packing.
pub(crate) fn repack_single(
    alloc: Global,
    message: &Message2<'_>,
    number: u32,
    target: RepackTarget,
) -> Result<Vec<u8>, RepackError>
    requires accepted { IsMessage message.now }
    requires first { 1 ≤ number }
    requires last { number ≤ field_count message.now }
    ensures { MatchResult result (λ octets. IsRepacked target (Two (single_of message.now number)) octets.items)
        (IsRepackError target (Two (single_of message.now number))) }
{
    if !is_packing(target) {
        return Err(RepackError::NoPacking);
    }
    what_is_cut_out_keeps_its_column();
    let Ok(octets) = single(alloc, message, number) else {
        return Err(RepackError::Misfit(RepackFault::Memory));
    };
    match read_message(alloc, Profile::Stated, &octets) {
        Ok(alone) => repack_second(alloc, &alone, target),
        Err(ReadFault::Memory) => Err(RepackError::Misfit(RepackFault::Memory)),
        Err(ReadFault::Refused(_)) => unreachable!(),
    }
}

/// Whether a target is a packing.
fn is_packing(target: RepackTarget) -> bool
    ensures { IsTrue result ↔ IsTarget (target_of target) }
{
    match target {
        RepackTarget::Simple | RepackTarget::Complex => true,
        RepackTarget::Spatial(order) => order == 1 || order == 2,
        RepackTarget::Coded { block, interval } => is_blocks(block, interval),
    }
}

/// Whether blocks may have so many values, and so many blocks one reference.
fn is_blocks(block: u8, interval: u16) -> bool
    ensures { IsTrue result ↔ IsBlocks block interval }
{
    (block == 8 || block == 16 || block == 32 || block == 64) && 1 <= interval && interval <= 4096
}
