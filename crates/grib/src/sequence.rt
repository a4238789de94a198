//! The messages of some octets, one after the other.

ghost use Rattle.std.specs.Prelude.{◌≡◌, ◌+◌, ◌≤◌, true, false, IsTrue, IsFalse, Some, [], length, drop};
ghost use Rattle.grib_stream.specs.Stream.{begins};
ghost use Rattle.grib_items.specs.Next as passes;
ghost use Rattle.grib_items.specs.Next.{passed};
ghost use Rattle.grib_command.specs.Judging.{judge};
ghost use Rattle.grib.specs.Messages.{items_left, IsSize};

use crate::{Message, ReadError};
use grib_stream::octets_before_mark;
use grib2_sections::read_head;
use std::alloc::Global;
use std::marker::Model;

/// How many octets a `GRIB` has, which are skipped of a refusal that has no end.
const MARK: usize = 4;

/// The messages of what is left of some octets. Each begins at the next `GRIB`; what stands between messages is
/// skipped. Where octets are refused, that is given, and the search goes on behind the length that they state if `7777`
/// stands there, and else behind their `GRIB`.
#[derive(Debug, Drop)]
pub struct MessageIter<'a> {
    alloc: Global,
    left: &'a [u8],
    /// How many octets stand before those that are left.
    place: u64,
}

impl<'a> Model for MessageIter<'a> {
    ghost use Rattle.std.specs.Prelude.{◌+◌, ◌^◌, ◌<◌, length};
    ghost use Rattle.grib.specs.Messages.{Left};

    ghost Value = { Left };

    ghost view = { λ messages. record { octets = messages.left.now; place = messages.place } };

    ghost invariant = { λ messages. messages.place + length messages.left.now < 2 ^ 64 };
}

/// The messages of these octets.
pub fn messages<'a>(alloc: Global, octets: &'a [u8]) -> MessageIter<'a>
    ensures octets { result.octets ≡ octets.now }
    ensures place { result.place ≡ 0 }
{
    MessageIter {
        alloc,
        left: octets,
        place: 0,
    }
}

impl<'a> MessageIter<'a> {
    /// Goes on to the first `GRIB`, and answers whether there is one; where there is none, nothing is left.
    fn find_mark(&mut self) -> bool
        ensures items { items_left self.new ≡ items_left self.old }
        ensures begun { IsTrue result → begins self.new.octets ≡ true }
        ensures none { IsFalse result → self.new.octets ≡ [] }
        ensures fewer { length self.new.octets ≤ length self.old.octets }
    {
        let before = octets_before_mark(self.left);
        if self.left.len() - before < 4 {
            self.skip(self.left.len());
            return false;
        }
        self.skip(before);
        true
    }

    /// Goes past this many octets.
    fn skip(&mut self, count: usize)
        requires { count ≤ length self.old.octets }
        ensures { self.new ≡ record { octets = drop count self.old.octets; place = self.old.place + count } }
    {
        self.left = &self.left[count..];
        self.place += count as u64;
    }
}

impl<'a> Iterator for MessageIter<'a> {
    ghost use Rattle.std.specs.Prelude.{length};
    ghost use Rattle.std.specs.Iterator.{at_most};
    ghost use Rattle.grib.specs.Messages.{GivesNext};

    type Item = Result<Message<'a>, ReadError>;

    ghost next_gives = { GivesNext };

    ghost remaining = { λ messages. at_most (length messages.octets) };

    fn next(&mut self) -> Option<Result<Message<'a>, ReadError>> {
        if !self.find_mark() {
            return None;
        }
        match Message::at(self.alloc, self.left, self.place) {
            Ok(message) => {
                self.skip(message.octets().len());
                Some(Ok(message))
            }
            Err(error) => match error {
                ReadError::Memory => {
                    self.skip(self.left.len());
                    Some(Err(error))
                }
                _ => {
                    self.skip(octets_of_first(self.left));
                    Some(Err(error))
                }
            },
        }
    }
}

/// How many octets the message has that these octets begin with, or how many of them are skipped where they are refused.
pub(crate) fn octets_of_first(octets: &[u8]) -> usize
    requires { begins octets.now ≡ true }
    ensures size { IsSize octets.now result (judge octets.now) }
    ensures some { 4 ≤ result }
    ensures within { result ≤ length octets.now }
{
    octets_skipped(octets)
}

/// How many of these octets are skipped where they are refused: as many as they state, if `7777` stands at their end, and
/// else those of their `GRIB`.
fn octets_skipped(octets: &[u8]) -> usize
    requires { begins octets.now ≡ true }
    ensures { passed false octets.now ≡ Some result }
{
    let total = match read_head(octets) {
        Ok(head) => head.total as usize,
        Err(_) => return MARK,
    };
    if octets.len() < total {
        return MARK;
    }
    if is_ended(octets, total) {
        return total;
    }
    MARK
}

/// Whether `7777` ends the first `total` octets.
fn is_ended(octets: &[u8], total: usize) -> bool
    requires { total ≤ length octets.now }
    ensures { result ≡ passes.is_ended total octets.now }
{
    octets[..total].ends_with(b"7777")
}
