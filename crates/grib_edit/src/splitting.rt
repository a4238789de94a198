//! The fields of a message on a shelf, each as a message of its own.

ghost use Rattle.std.specs.Prelude.{◌≡◌, ℕ, ◌+◌, ◌*◌, ◌≤◌, ◌^◌, string_bytes, length, IfOk, MatchOption};
ghost use Rattle.grib_io.specs.Outside.{CountsStops};
ghost use Rattle.grib2_message.specs.Fields.{field_count};
ghost use Rattle.grib2_message.specs.Message.{IsAnyMessage};
ghost use Rattle.grib_select.specs.Single.{single_of};
ghost use Rattle.grib_stream.specs.Task.{Gives};
ghost use Rattle.grib_command.specs.Answering.{AnswersByShelf};
ghost use Rattle.grib_edit.specs.Parts as parts;
ghost use Rattle.grib_edit.specs.Parts.{part, part_of, parts_of, parts1_of, puts, puts_all, octets_within};
ghost use Rattle.grib_edit.specs.Shelving.{Shelves};

use grib_base::MOST_OCTETS;
use grib_command::{Answered, Answerer, Ending, Name};
use grib_io::{Shelf, Sink, Stop};
use grib_select::single;
use grib_stream::{Cause, Place};
use grib1_sections::Message1;
use grib2_arrival::Arrival;
use grib2_message::Message;
use std::alloc::{AllocError, Global};

/// The command `split`.
#[derive(Debug, Drop)]
pub struct Splitting<'a> {
    /// The name on the shelf before the numbers of the fields.
    pub name: &'a Name,
    /// Whether messages of edition 1 are put there too.
    pub edition_1: bool,
}

impl Answerer for Splitting<'_> {
    ghost use Rattle.grib_edit.specs.Splitting.{split_command, split_lawful};

    ghost definition = { λ splitting. split_command splitting.edition_1 splitting.name.now };

    ghost lawful = { λ splitting. split_lawful splitting.edition_1 splitting.name.now };

    fn first<T: Sink, H: Shelf>(
        &self,
        alloc: Global,
        place: &Place,
        message: &Message1<'_>,
        _output: &mut T,
        shelf: &mut H,
    ) -> Answered {
        if self.edition_1 {
            return put_whole(alloc, self.name, place.fields, message, shelf);
        }
        Answered::Kept(Cause::EditionOne)
    }

    fn second<T: Sink, H: Shelf>(
        &self,
        alloc: Global,
        place: &Place,
        message: &Message<'_>,
        _output: &mut T,
        shelf: &mut H,
    ) -> Answered {
        split(alloc, self.name, place.fields, message, shelf)
    }

    /// No message is judged incrementally.
    fn hears(&self) -> bool {
        false
    }

    fn heard<T: Sink>(
        &self,
        _alloc: Global,
        _place: &Place,
        _arrival: &Arrival,
        _output: &mut T,
    ) -> Answered {
        Answered::Memory
    }

    fn ending(&self) -> Ending {
        Ending::Written
    }
}

/// Puts a message of edition 1 on the shelf, under the name with the number of its field in the whole input, in which
/// this many fields stand before it.
fn put_whole<H: Shelf>(
    alloc: Global,
    name: &Name,
    before: u64,
    message: &Message1<'_>,
    shelf: &mut H,
) -> Answered
    requires { before ≤ 2 ^ 41 }
    ensures { (m : ℕ) → AnswersByShelf H.contents H.faults result m
        (Gives (puts_all (parts1_of name.now before message.now))
        (octets_within (parts1_of name.now before message.now)))
        shelf.old shelf.new }
{
    match put_numbered(alloc, name, before + 1, message.octets(), shelf) {
        Ok(written) => Answered::Whole(written),
        Err(Stop::Failed) => Answered::ShelfFault,
        Err(Stop::Memory) => Answered::Memory,
    }
}

/// Puts each field of a message on the shelf, as a message of its own under the name with the number of the
/// field in the whole input, in which this many fields stand before the message.
fn split<H: Shelf>(
    alloc: Global,
    name: &Name,
    before: u64,
    message: &Message<'_>,
    shelf: &mut H,
) -> Answered
    requires { before ≤ 2 ^ 41 }
    ensures { (m : ℕ) → AnswersByShelf H.contents H.faults result m
        (Gives (puts_all (parts_of name.now before message.now))
        (octets_within (parts_of name.now before message.now)))
        shelf.old shelf.new }
{
    match put_fields(alloc, name, before, message, shelf) {
        Ok(written) => Answered::Whole(written),
        Err(Stop::Failed) => Answered::ShelfFault,
        Err(Stop::Memory) => Answered::Memory,
    }
}

/// Puts each field of a message, before which this many fields stand, and answers how many octets they have.
fn put_fields<H: Shelf>(
    alloc: Global,
    name: &Name,
    before: u64,
    message: &Message<'_>,
    shelf: &mut H,
) -> Result<u64, Stop>
    requires { before ≤ 2 ^ 41 }
    ensures shelved { Shelves result (H.contents shelf.old) (H.contents shelf.new)
        (puts_all (parts_of name.now before message.now)) }
    ensures written { IfOk result (λ written. written
        ≡ octets_within (parts_of name.now before message.now)) }
    ensures counted { CountsStops result (H.faults shelf.old) (H.faults shelf.new) }
{
    // That the message is accepted bounds the octets of each field.
    let _accepted = message.octets();
    let mut written = 0;
    let count = message.fields();
    for index in 0..count {
        written += put_field(alloc, name, before, message, index + 1, shelf)?;
    }
    Ok(written)
}

/// Puts a field, counted from 1, and answers how many octets it has. The only field of a message is put from where it
/// stands. Without memory no name is made.
fn put_field<H: Shelf>(
    alloc: Global,
    name: &Name,
    before: u64,
    message: &Message<'_>,
    field: u32,
    shelf: &mut H,
) -> Result<u64, Stop>
    requires message { IsAnyMessage message.now }
    requires before { before ≤ 2 ^ 41 }
    requires first { 1 ≤ field }
    requires last { field ≤ field_count message.now }
    ensures shelved { Shelves result (H.contents shelf.old) (H.contents shelf.new)
        (puts (part_of name.now before message.now field)) }
    ensures written { IfOk result (λ written. written ≡ length (single_of message.now field)) }
    ensures few { IfOk result (λ written. written ≤ MOST_OCTETS) }
    ensures counted { CountsStops result (H.faults shelf.old) (H.faults shelf.new) }
{
    let number = before + u64::from(field);
    if let Some(octets) = sole(message, field) {
        return put_numbered(alloc, name, number, octets, shelf);
    }
    let octets = single(alloc, message, field)?;
    put_numbered(alloc, name, number, octets.as_slice(), shelf)
}

/// The octets of a field, counted from 1, that is the only one of its message. They are the message as it stands.
fn sole<'a>(message: &Message<'a>, field: u32) -> Option<&'a [u8]>
    requires first { 1 ≤ field }
    requires last { field ≤ field_count message.now }
    ensures { MatchOption result (2 ≤ field_count message.now)
        (λ octets. octets.now ≡ single_of message.now field) }
{
    let octets = message.octets();
    if message.fields() == 1 {
        return Some(octets);
    }
    None
}

/// Puts these octets under the name with this number, and answers how many they are. Without memory no name is made.
fn put_numbered<H: Shelf>(
    alloc: Global,
    name: &Name,
    number: u64,
    octets: &[u8],
    shelf: &mut H,
) -> Result<u64, Stop>
    ensures shelved { Shelves result (H.contents shelf.old) (H.contents shelf.new)
        (puts (part (parts.part_name name.now number) octets.now)) }
    ensures written { IfOk result (λ written. written ≡ length octets.now) }
    ensures counted { CountsStops result (H.faults shelf.old) (H.faults shelf.new) }
{
    let text = part_name(alloc, name, number)?;
    put(text.as_str(), octets, shelf)?;
    Ok(octets.len() as u64)
}

/// The name of the field with this number.
fn part_name(alloc: Global, name: &Name, number: u64) -> Result<String, AllocError>
    ensures { IfOk result (λ text. string_bytes text ≡ parts.part_name name.now number) }
{
    let out = name.as_str();
    format!(in alloc; "{out}.{number}")
}

/// Makes a name, and gives it these octets.
fn put<H: Shelf>(name: &str, octets: &[u8], shelf: &mut H) -> Result<(), Stop>
    ensures shelved { Shelves result (H.contents shelf.old) (H.contents shelf.new)
        (puts (part name.now octets.now)) }
    ensures counted { CountsStops result (H.faults shelf.old) (H.faults shelf.new) }
{
    shelf.make(name)?;
    shelf.append(name, octets)
}
