//! The message of a field of a file.

ghost use Rattle.std.specs.Prelude.{◌≡◌, Some, IfOk, IfSome, IsTrue, slice_get};
ghost use Rattle.grib_dispatch.specs.Reading.{held_octets};
ghost use Rattle.grib_compare.specs.Seen.{IsOfField};

use grib_dispatch::Held;
use grib_file::{FileField, GribFile};
use std::alloc::{AllocError, Global};

/// The message of a field of a file, with the index of that field, which begins at 0, and whether it has the same octets
/// as the message that it stands beside.
#[derive(Debug, Drop)]
pub(crate) struct FileMessage<'a> {
    pub(crate) index: u64,
    pub(crate) held: Held<'a>,
    pub(crate) is_same: bool,
}

impl<'a> FileMessage<'a> {
    /// The message of the field with this index, beside a message of these octets: the one that was read last, if the
    /// field stands in it.
    ///
    /// # Errors
    ///
    /// There is no memory.
    pub(crate) fn of(
        alloc: Global,
        file: &'a GribFile,
        index: u64,
        field: &FileField<'a>,
        octets: &[u8],
        last: Option<FileMessage<'a>>,
    ) -> Result<FileMessage<'a>, AllocError>
        requires found { slice_get file.now.fields index ≡ Some field.now }
        requires stands { IfSome last (IsOfField file.now.fields octets.now) }
        ensures octets { IfOk result (λ read. held_octets read.held ≡ field.now.message) }
        ensures same { IfOk result (λ read. IsTrue read.is_same → octets.now ≡ field.now.message) }
        ensures stands { IfOk result (IsOfField file.now.fields octets.now) }
    {
        match last {
            Some(last) if file.are_of_one_message(index, last.index) => Ok(last),
            _ => Ok(FileMessage {
                index,
                held: field.read(alloc)?,
                is_same: octets == field.octets(),
            }),
        }
    }
}
