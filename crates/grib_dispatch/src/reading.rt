//! The message that octets begin with.

ghost use Rattle.std.specs.Prelude.{◌≡◌, true, MatchResult};
ghost use Rattle.grib2_sections.specs.Head as head;
ghost use Rattle.grib_stream.specs.Stream.{begins};
ghost use Rattle.grib_dispatch.specs.Reading.{Holds, IsUnread};
ghost use Rattle.grib_base.specs.declared.profile.Profile.{Profile};
ghost use Rattle.grib_base.specs.declared.fault.ReadFault.TheVariants.{Refused, Memory};

use grib_base::{Profile, ReadFault};
use grib_bits::u8_at;
use grib1_sections::{Message1, read_message1};
use grib2_message::{Message, read_message};
use grib2_sections::read_head;
use std::alloc::Global;

/// A message that is held whole.
#[derive(Debug, Drop)]
pub enum Held<'a> {
    /// Of edition 1.
    One(Message1<'a>),
    /// Of edition 2.
    Two(Message<'a>),
}

/// Reads the message that these octets begin with, which begin with `GRIB`. One of edition 2 is read by the profile.
///
/// # Errors
///
/// The message is refused, at an octet of it and with a reason, or there is no memory.
pub fn read_held<'a>(
    alloc: Global,
    profile: Profile,
    octets: &'a [u8],
) -> Result<Held<'a>, ReadFault>
    requires { begins octets.now ≡ true }
    ensures { MatchResult result (Holds profile octets.now) (IsUnread profile octets.now) }
{
    match edition_of(octets) {
        1 => read_first(alloc, octets),
        2 => read_second(alloc, profile, octets),
        _ => match read_head(octets) {
            Ok(_) => unreachable!(),
            Err(fault) => Err(ReadFault::Refused(fault)),
        },
    }
}

/// The edition, 0 where it does not stand.
fn edition_of(octets: &[u8]) -> u8
    ensures { result ≡ head.edition octets.now }
{
    if octets.len() < 8 {
        0
    } else {
        u8_at(octets, 8)
    }
}

/// Reads a message of edition 1.
fn read_first<'a>(alloc: Global, octets: &'a [u8]) -> Result<Held<'a>, ReadFault>
    requires begun { begins octets.now ≡ true }
    requires first { head.edition octets.now ≡ 1 }
    ensures { (profile : Profile) → MatchResult result (Holds profile octets.now) (IsUnread profile octets.now) }
{
    let message = read_message1(alloc, octets)?;
    Ok(Held::One(message))
}

/// Reads a message of edition 2 by the profile.
fn read_second<'a>(alloc: Global, profile: Profile, octets: &'a [u8]) -> Result<Held<'a>, ReadFault>
    requires begun { begins octets.now ≡ true }
    requires second { head.edition octets.now ≡ 2 }
    ensures { MatchResult result (Holds profile octets.now) (IsUnread profile octets.now) }
{
    let message = read_message(alloc, profile, octets)?;
    Ok(Held::Two(message))
}
