//! Where the fields of a file stand in its octets.

ghost use Rattle.std.specs.Prelude.{◌≡◌, ◌++◌, OnOk};
ghost use Rattle.grib_file.specs.Entries.{entries_in};

use std::alloc::AllocError;

/// A field of a file: where its message begins in the octets, counted from 0, how many octets that has, and the
/// field's number in it, from 1.
#[derive(Clone, Copy, Debug)]
pub(crate) struct Entry {
    pub(crate) start: usize,
    pub(crate) length: usize,
    pub(crate) number: u32,
}

/// The octets of a message, and its fields.
#[derive(Clone, Copy, Debug)]
pub(crate) struct Span {
    pub(crate) length: usize,
    pub(crate) fields: u32,
}

/// Puts the fields of a message that begins at this octet behind the others.
pub(crate) fn push_fields(
    entries: &mut Vec<Entry>,
    start: usize,
    span: Span,
) -> Result<(), AllocError>
    ensures { OnOk result (entries.new.items ≡ entries.old.items ++ entries_in start span.length span.fields) }
{
    for index in 0..span.fields {
        entries.push(Entry {
            start,
            length: span.length,
            number: index + 1,
        })?;
    }
    Ok(())
}
