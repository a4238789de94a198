//! The notes on a run.

ghost use Rattle.std.specs.Prelude.{◌≡◌, IfOk};
ghost use Rattle.grib_text.specs.Notes as notes;

use grib_base::{Fault, Refusal};
use std::alloc::{AllocError, Global};

/// The note on the refusal of a message: the octet that decides it, the reason and its detail. The
/// only error is that there is no memory.
pub fn refusal_note(alloc: Global, refusal: &Refusal) -> Result<Vec<u8>, AllocError>
    ensures { IfOk result
        (λ note. note.items ≡ notes.refusal_note refusal.now.message refusal.now.fault) }
{
    let message = refusal.message;
    let head = format!(in alloc; "refused message {message}")?;
    refusal_text(alloc, head.as_str(), &refusal.fault)
}

/// The line on a refusal that is skipped, at the place where a message of this number would begin after this many
/// octets of the input.
pub fn refused_line(
    alloc: Global,
    message: u64,
    before: u64,
    fault: &Fault,
) -> Result<Vec<u8>, AllocError>
    ensures { IfOk result (λ line. line.items ≡ notes.refused_line message before fault.now) }
{
    let head = format!(in alloc; "refused message {message} at {before}")?;
    refusal_text(alloc, head.as_str(), fault)
}

/// What is refused, and why.
fn refusal_text(alloc: Global, head: &str, fault: &Fault) -> Result<Vec<u8>, AllocError>
    ensures { IfOk result (λ text. text.items ≡ notes.refusal_text head.now fault.now) }
{
    let octet = fault.octet;
    let reason = fault.reason;
    let detail = fault.detail;
    let text = format!(in alloc; "{head} octet {octet} {reason} {detail}\n")?;
    Ok(text.into_bytes())
}
