//! The messages in the octets of a file, one after another.

ghost use Rattle.std.specs.Prelude.{◌≡◌, ◌-◌, ◌<◌, ◌≤◌, ◌^◌, All, IfOk, MatchOption, MatchResult, Some, drop, length, true};
ghost use Rattle.grib_command.specs.Judging.{fields_of};
ghost use Rattle.grib_dispatch.specs.Reading.{held_octets};
ghost use Rattle.grib_stream.specs.Searching.{Markless};
ghost use Rattle.grib_stream.specs.Stream.{begins};
ghost use Rattle.grib_file.specs.Entries.{IsEntryOf, fields_at};
ghost use Rattle.grib_file.specs.Filed.{Good, filed};
ghost use Rattle.grib_file.specs.Finding.{IsNext, IsNoFile, IsSpan, IsStopAt};

use crate::entries::{Entry, Span, push_fields};
use crate::file::GribFile;
use crate::stop::FileStop;
use grib_base::{Profile, ReadFault, Refusal};
use grib_dispatch::{Held, read_held};
use grib_stream::{FileRefusal, octets_before_mark};
use std::alloc::Global;

/// These octets as a file.
///
/// # Errors
///
/// A message is refused, or there is no memory.
pub(crate) fn file_of(
    alloc: Global,
    profile: Profile,
    octets: Vec<u8>,
) -> Result<GribFile, FileStop>
    ensures profile { IfOk result (λ file. file.profile ≡ profile) }
    ensures filed { MatchResult result
        (λ file. filed profile (Some octets.items) ≡ Good file.fields)
        (IsNoFile profile octets.items) }
{
    let entries = entries_of(alloc, profile, octets.as_slice())?;
    Ok(GribFile::of(profile, octets, entries))
}

/// Where the fields of a file stand in these octets. Each message begins at the next `GRIB`.
fn entries_of(alloc: Global, profile: Profile, octets: &[u8]) -> Result<Vec<Entry>, FileStop>
    ensures accepted { IfOk result (λ entries. All (IsEntryOf profile octets.now) entries.items) }
    ensures filed { MatchResult result
        (λ entries. filed profile (Some octets.now) ≡ Good (fields_at octets.now entries.items))
        (IsNoFile profile octets.now) }
{
    let mut entries = Vec::new(alloc);
    let mut messages = 0;
    let mut place = 0;
    while let Some(start) = next_mark(octets, place) {
        let span = span_of(alloc, profile, &octets[start..], messages)?;
        push_fields(&mut entries, start, span)?;
        place = start + span.length;
        messages += 1;
    }
    Ok(entries)
}

/// Where the next message begins, from this place on.
fn next_mark(octets: &[u8], place: usize) -> Option<usize>
    requires { place ≤ length octets.now }
    ensures { MatchOption result (Markless (length octets.now - place) (drop place octets.now))
        (IsNext octets.now place) }
{
    let rest = &octets[place..];
    let before = octets_before_mark(rest);
    if rest.len() - before < 4 {
        return None;
    }
    Some(place + before)
}

/// The message that these octets begin with, which begin with `GRIB`, behind this many others.
fn span_of(alloc: Global, profile: Profile, octets: &[u8], messages: u64) -> Result<Span, FileStop>
    requires begun { begins octets.now ≡ true }
    requires few { messages < 2 ^ 63 }
    ensures { MatchResult result (IsSpan profile octets.now) (IsStopAt profile octets.now messages) }
{
    match read_held(alloc, profile, octets) {
        Ok(held) => Ok(span_of_held(&held)),
        Err(ReadFault::Refused(fault)) => {
            let message = messages + 1;
            Err(FileStop::Refused(FileRefusal::Refused(Refusal { message, fault })))
        }
        Err(ReadFault::Memory) => Err(FileStop::Memory),
    }
}

/// The octets of a message, and its fields.
fn span_of_held(held: &Held<'_>) -> Span
    ensures length { result.length ≡ length (held_octets held.now) }
    ensures fields { result.fields ≡ fields_of (held_octets held.now) }
{
    match held {
        Held::One(message) => Span {
            length: message.octets().len(),
            fields: 1,
        },
        Held::Two(message) => Span {
            length: message.octets().len(),
            fields: message.fields(),
        },
    }
}
