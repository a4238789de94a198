//! The lines of `check`.

ghost use Rattle.std.specs.Prelude.{◌≡◌, IfOk};
ghost use Rattle.grib_text.specs.Lines as lines;

use std::alloc::{AllocError, Global};

/// The line of the message with this number, from 1: it begins after `at` octets of the input, is of
/// this edition and `total` octets long, and has this many fields. The only error is that there is no memory.
pub fn check_line(
    alloc: Global,
    number: u64,
    at: u64,
    edition: u8,
    total: u64,
    fields: u32,
) -> Result<Vec<u8>, AllocError>
    ensures { IfOk result (λ line. line.items ≡ lines.check_line number at edition total fields) }
{
    let line = format!(in alloc;
        "message {number} at {at} edition {edition} octets {total} fields {fields}\n"
    )?;
    Ok(line.into_bytes())
}

/// The last line: how many messages and fields were read, and how many octets stand in no message.
/// The only error is that there is no memory.
pub fn total_line(
    alloc: Global,
    messages: u64,
    fields: u64,
    skipped: u64,
) -> Result<Vec<u8>, AllocError>
    ensures { IfOk result (λ line. line.items ≡ lines.total_line messages fields skipped) }
{
    let line = format!(in alloc; "messages {messages} fields {fields} skipped {skipped}\n")?;
    Ok(line.into_bytes())
}
