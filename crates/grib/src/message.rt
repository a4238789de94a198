//! A message of either edition.

ghost use Rattle.std.specs.Prelude.{◌≡◌, ◌≤◌, true, length, MatchResult, MatchOption, None, Some};
ghost use Rattle.grib_stream.specs.Stream.{begins};
ghost use Rattle.grib_base.specs.declared.profile.Profile.TheVariants.{Stated};
ghost use Rattle.grib_dispatch.specs.Reading.{IsHeld, held_octets};
ghost use Rattle.grib.specs.Message.{BeginsWith, IsReadError, edition_of, field_count_in, fields_in, first_of, second_of};
ghost use Rattle.grib.specs.Fields.{fields_left};

use crate::readable::readable;
use crate::{Fields, ReadError};
use grib_base::{Profile, ReadFault};
use grib_dispatch::{Held, read_held};
use grib1_sections::Message1;
use grib2_message::ReadableMessage;
use std::alloc::Global;
use std::marker::Model;

/// A message that is accepted, of edition 1 or 2 (WMO-No. 306, Volume I.2, FM 92 GRIB, in the profile of
/// docs/PROFILE.md). It borrows its octets.
#[derive(Debug, Drop)]
pub struct Message<'a> {
    held: Held<'a>,
}

impl<'a> Model for Message<'a> {
    ghost use Rattle.grib_base.specs.declared.profile.Profile.TheVariants.{Stated};
    ghost use Rattle.grib_dispatch.specs.Reading.{IsHeld};
    ghost use Rattle.grib_dispatch.specs.declared.reading.Held.{Held};

    ghost Value = { Held };

    ghost view = { λ message. message.held };

    ghost invariant = { λ message. IsHeld Stated message.held };
}

/// Reads the message that these octets begin with; what stands behind it is not looked at.
///
/// # Errors
///
/// The octets do not begin with `GRIB`; or the message is refused, at an octet of it and with a reason, as
/// docs/PROFILE.md states it; or there is no memory.
pub fn read<'a>(alloc: Global, octets: &'a [u8]) -> Result<Message<'a>, ReadError>
    ensures { MatchResult result (BeginsWith octets.now) (IsReadError octets.now 0) }
{
    if !octets.starts_with(b"GRIB") {
        return Err(ReadError::NoMessage);
    }
    Message::at(alloc, octets, 0)
}

impl<'a> Message<'a> {
    /// The message that these octets begin with, which begin with `GRIB` and stand at this octet of the input.
    pub(crate) fn at(alloc: Global, octets: &'a [u8], place: u64) -> Result<Message<'a>, ReadError>
        requires { begins octets.now ≡ true }
        ensures { MatchResult result (BeginsWith octets.now) (IsReadError octets.now place) }
    {
        match read_held(alloc, Profile::Stated, octets) {
            Ok(held) => Ok(Message { held }),
            Err(ReadFault::Refused(fault)) => Err(ReadError::Refused { place, fault }),
            Err(ReadFault::Memory) => Err(ReadError::Memory),
        }
    }

    /// The message by its edition.
    pub(crate) fn held(&self) -> &Held<'a>
        ensures held { result.now ≡ self.now }
        ensures accepted { IsHeld Stated self.now }
    {
        &self.held
    }

    /// The edition, 1 or 2.
    pub fn edition(&self) -> u8
        ensures { result ≡ edition_of self.now }
    {
        match self.held {
            Held::One(_) => 1,
            Held::Two(_) => 2,
        }
    }

    /// The octets from `GRIB` to `7777`.
    pub fn octets(&self) -> &'a [u8]
        ensures { result.now ≡ held_octets self.now }
    {
        match &self.held {
            Held::One(message) => message.octets(),
            Held::Two(message) => message.octets(),
        }
    }

    /// How many fields the message has: 1 in edition 1, 1 to 4,096 in edition 2.
    pub fn field_count(&self) -> u32
        ensures count { result ≡ field_count_in self.now }
        ensures some { 1 ≤ result }
        ensures few { result ≤ 4096 }
    {
        match &self.held {
            Held::One(message) => {
                message.octets();
                1
            }
            Held::Two(message) => {
                message.octets();
                message.fields()
            }
        }
    }

    /// The message, where it is of edition 1, for what only edition 1 has: `migrate`.
    pub fn edition_1(&self) -> Option<&Message1<'a>>
        ensures { MatchOption result (first_of self.now ≡ None) (λ message. first_of self.now ≡ Some message.now) }
    {
        match &self.held {
            Held::One(message) => Some(message),
            Held::Two(_) => None,
        }
    }

    /// The message, where it is of edition 2, for what only edition 2 has: `repack`.
    pub fn edition_2(&self) -> Option<ReadableMessage<'_>>
        ensures { MatchOption result (second_of self.now ≡ None) (λ message. second_of self.now ≡ Some message) }
    {
        match &self.held {
            Held::One(_) => None,
            Held::Two(message) => Some(readable(message)),
        }
    }

    /// The fields in the order of the message.
    pub fn fields(&self) -> Fields<'_, 'a>
        ensures { fields_left result ≡ fields_in self.now }
    {
        Fields::of(self)
    }
}
