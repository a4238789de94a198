//! A field of a file.

ghost use Rattle.std.specs.Prelude.{◌≡◌, ◌≤◌, true, IfOk};
ghost use Rattle.grib_base.specs.declared.profile.Profile.{Profile};
ghost use Rattle.grib_stream.specs.Stream.{begins};
ghost use Rattle.grib_command.specs.Judging.{fields_of};
ghost use Rattle.grib_dispatch.specs.Reading.{IsHeld, held_octets};
ghost use Rattle.grib_file.specs.Filed.{field_of};
ghost use Rattle.grib_file.specs.Read.{IsFieldOf};

use grib_base::{Profile, ReadFault};
use grib_dispatch::{Held, read_held};
use std::alloc::{AllocError, Global};
use std::marker::Model;

/// A field of a file: the octets of its message, which is accepted, and its number in it, from 1.
#[derive(Debug, Drop)]
pub struct FileField<'a> {
    profile: Profile,
    message: &'a [u8],
    number: u32,
}

impl<'a> Model for FileField<'a> {
    ghost use Rattle.grib_file.specs.Filed.{FieldOf, field_of};

    ghost Value = { FieldOf };

    ghost use Rattle.grib_file.specs.Read.{IsFieldOf};

    ghost view = { λ field. field_of field.message.now field.number };

    ghost invariant = { λ field. IsFieldOf field.profile (field_of field.message.now field.number) };
}

impl<'a> FileField<'a> {
    /// The field with this number of a message that is accepted by the profile.
    pub(crate) fn of(profile: Profile, message: &'a [u8], number: u32) -> FileField<'a>
        requires { IsFieldOf profile (field_of message.now number) }
        ensures { result ≡ field_of message.now number }
    {
        FileField {
            profile,
            message,
            number,
        }
    }

    /// Its number in its message, from 1.
    pub fn number(&self) -> u32
        ensures number { result ≡ self.now.number }
        ensures first { 1 ≤ self.now.number }
        ensures last { self.now.number ≤ fields_of self.now.message }
    {
        self.number
    }

    /// The octets of its message, from `GRIB` to `7777`.
    pub fn octets(&self) -> &'a [u8]
        ensures octets { result.now ≡ self.now.message }
        ensures begun { begins self.now.message ≡ true }
        ensures accepted { (profile : Profile) × IsFieldOf profile self.now }
    {
        self.message
    }

    /// Its message.
    ///
    /// # Errors
    ///
    /// There is no memory.
    pub fn read(&self, alloc: Global) -> Result<Held<'a>, AllocError>
        ensures octets { IfOk result (λ held. held_octets held ≡ self.now.message) }
        ensures accepted { IfOk result (λ held. (profile : Profile) × IsHeld profile held) }
        ensures first { 1 ≤ self.now.number }
        ensures last { self.now.number ≤ fields_of self.now.message }
    {
        match read_held(alloc, self.profile, self.message) {
            Ok(held) => Ok(held),
            Err(ReadFault::Refused(_)) => unreachable!(),
            Err(ReadFault::Memory) => Err(AllocError),
        }
    }
}
