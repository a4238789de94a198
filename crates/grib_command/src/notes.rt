//! The notes on what was changed, could not be changed, or was made.

ghost use Rattle.std.specs.Prelude.{◌≡◌, string_bytes, IfOk};
ghost use Rattle.grib_command.specs.Endings as endings;
ghost use Rattle.grib_command.specs.Notes as notes;
ghost use Rattle.grib_command.specs.Outcomes.{note_of};
ghost use Rattle.grib_stream.specs.declared.outcome.Outcome.TheVariants.{Usage};

use grib_base::{Fault, Refusal};
use grib_reasons::{Kept, TableRefusal};
use grib_stream::{FileRefusal, Totals};
use std::alloc::{AllocError, Global};

/// The note on arguments that are not valid, by the first that is not read. The only error of notes
/// is that there is no memory.
pub fn usage_note(alloc: Global, word: u64) -> Result<Vec<u8>, AllocError>
    ensures { IfOk result (λ note. note.items ≡ note_of (Usage word)) }
{
    let note = format!(in alloc; "usage word {word}\n")?;
    Ok(note.into_bytes())
}

/// The note on an input that was read to its end, with this many refusals passed and this many
/// messages not changed.
pub fn passed_note(alloc: Global, refused: u64, kept: u64) -> Result<Vec<u8>, AllocError>
    ensures { IfOk result (λ note. note.items ≡ notes.passed_note refused kept) }
{
    let note = format!(in alloc; "refused {refused} kept {kept}\n")?;
    Ok(note.into_bytes())
}

/// The note on a message that is accepted and cannot be changed.
pub fn kept_note(alloc: Global, kept: &Kept) -> Result<Vec<u8>, AllocError>
    ensures { IfOk result (λ note. note.items ≡ notes.kept_note kept.now.message kept.now.cause) }
{
    let Kept { message, cause } = *kept;
    let note = format!(in alloc; "kept message {message} {cause}\n")?;
    Ok(note.into_bytes())
}

/// The line on a message that cannot be changed, and behind which a run goes on, with the octets of
/// the input before it.
pub fn kept_line(alloc: Global, kept: &Kept, before: u64) -> Result<Vec<u8>, AllocError>
    ensures { IfOk result (λ line. line.items ≡ notes.kept_line kept.now.message before kept.now.cause) }
{
    let Kept { message, cause } = *kept;
    let line = format!(in alloc; "kept message {message} at {before} {cause}\n")?;
    Ok(line.into_bytes())
}

/// The line on octets that are refused and copied, at the place where a message of this number would begin behind
/// this many octets of the input.
pub fn copied_line(
    alloc: Global,
    message: u64,
    before: u64,
    fault: &Fault,
) -> Result<Vec<u8>, AllocError>
    ensures { IfOk result (λ line. line.items ≡ notes.copied_line message before fault.now) }
{
    let octet = fault.octet;
    let reason = fault.reason;
    let detail = fault.detail;
    let line = format!(in alloc;
        "copied message {message} at {before} octet {octet} {reason} {detail}\n"
    )?;
    Ok(line.into_bytes())
}

/// The note on a parameter table that is refused.
pub fn table_note(alloc: Global, refusal: &TableRefusal) -> Result<Vec<u8>, AllocError>
    ensures { IfOk result (λ note. note.items ≡ notes.table_note refusal.now) }
{
    let note = format!(in alloc; "{refusal}\n")?;
    Ok(note.into_bytes())
}

/// The note on a table of surfaces that is refused.
pub fn surfaces_note(alloc: Global, refusal: &TableRefusal) -> Result<Vec<u8>, AllocError>
    ensures { IfOk result (λ note. note.items ≡ notes.surfaces_note refusal.now) }
{
    let note = surfaces_text(alloc, refusal)?;
    Ok(note.into_bytes())
}

/// The note on a file that is refused.
pub fn file_note(alloc: Global, refusal: &FileRefusal) -> Result<Vec<u8>, AllocError>
    ensures { IfOk result (λ note. note.items ≡ notes.file_note refusal.now) }
{
    let note = file_text(alloc, refusal)?;
    Ok(note.into_bytes())
}

/// Why a file is refused.
fn file_text(alloc: Global, refusal: &FileRefusal) -> Result<String, AllocError>
    ensures { IfOk result (λ text. string_bytes text ≡ notes.file_note refusal.now) }
{
    match *refusal {
        FileRefusal::Absent => format!(in alloc; "file absent\n"),
        FileRefusal::Refused(Refusal { message, fault }) => {
            refused_file_text(alloc, message, &fault)
        }
    }
}

/// Why a message of a file is refused.
fn refused_file_text(alloc: Global, message: u64, fault: &Fault) -> Result<String, AllocError>
    ensures { IfOk result (λ text. string_bytes text ≡ notes.refused_file_text message fault.now) }
{
    let octet = fault.octet;
    let reason = fault.reason;
    let detail = fault.detail;
    let text = format!(in alloc;
        "file refused message {message} octet {octet} {reason} {detail}\n"
    )?;
    Ok(text)
}

/// The last line of a comparison with a file that has `in_file` fields.
pub(crate) fn comparison_line(
    alloc: Global,
    totals: &Totals,
    in_file: u64,
) -> Result<Vec<u8>, AllocError>
    ensures { IfOk result (λ line. line.items ≡ endings.comparison_line totals.now.fields totals.now.written in_file) }
{
    let both = totals.fields.min(in_file);
    let same = both.saturating_sub(totals.written);
    let (only_here, only_there) = (totals.fields - both, in_file - both);
    counts_line(
        alloc,
        totals.fields,
        same,
        totals.written,
        only_here,
        only_there,
    )
}

/// The line with these counts of fields.
fn counts_line(
    alloc: Global,
    fields: u64,
    same: u64,
    differing: u64,
    only_here: u64,
    only_there: u64,
) -> Result<Vec<u8>, AllocError>
    ensures { IfOk result (λ line. line.items ≡ endings.counts_line fields same differing only_here only_there) }
{
    let line = format!(in alloc;
        "fields {fields} same {same} differ {differing} only-input {only_here} only-file {only_there}\n"
    )?;
    Ok(line.into_bytes())
}

/// Why a table of surfaces is refused.
fn surfaces_text(alloc: Global, refusal: &TableRefusal) -> Result<String, AllocError>
    ensures { IfOk result (λ text. string_bytes text ≡ notes.surfaces_note refusal.now) }
{
    match *refusal {
        TableRefusal::Absent => format!(in alloc; "surfaces absent\n"),
        TableRefusal::TooLarge => format!(in alloc; "surfaces too large\n"),
        TableRefusal::Row(number) => format!(in alloc; "surfaces row {number}\n"),
        TableRefusal::Duplicate(number) => format!(in alloc; "surfaces duplicate {number}\n"),
    }
}

/// The note on an input that was read to its end, with all of its messages changed.
pub(crate) fn written_note(alloc: Global, totals: &Totals) -> Result<Vec<u8>, AllocError>
    ensures { IfOk result (λ note. note.items ≡ notes.written_note totals.now) }
{
    let messages = totals.messages;
    let fields = totals.fields;
    let written = totals.written;
    let note = format!(in alloc; "messages {messages} fields {fields} written {written}\n")?;
    Ok(note.into_bytes())
}

/// The note on an input that was read to its end, with all of its messages changed but those that
/// could not be.
pub(crate) fn written_passed_note(
    alloc: Global,
    totals: &Totals,
    refused: u64,
    kept: u64,
) -> Result<Vec<u8>, AllocError>
    ensures { IfOk result (λ note. note.items ≡ notes.written_passed_note totals.now refused kept) }
{
    let messages = totals.messages;
    let fields = totals.fields;
    let written = totals.written;
    let note = format!(in alloc;
        "messages {messages} fields {fields} written {written} refused {refused} kept {kept}\n"
    )?;
    Ok(note.into_bytes())
}

/// The note on a message that was made: its octets, those that were written of it packed anew, its present
/// points and the sum of their scaled integers.
pub fn made_note(
    alloc: Global,
    made: u64,
    written: u64,
    present: u64,
    sum: u64,
) -> Result<Vec<u8>, AllocError>
    ensures { IfOk result (λ note. note.items ≡ notes.made_note made written present sum) }
{
    let note = format!(in alloc; "made {made} written {written} present {present} sum {sum}\n")?;
    Ok(note.into_bytes())
}
