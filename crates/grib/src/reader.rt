//! The messages of an input that comes in pieces, one after the other.

ghost use Rattle.std.specs.Prelude.{◌≡◌, ◌≢◌, ◌+◌, ◌-◌, ◌^◌, ◌<◌, ◌≤◌, ◌⊎◌, true, false, [], Ok, Err, length, IsTrue, IfOk, OnOk, IfErr};
ghost use Rattle.grib_stream.specs.Stream.{begins};
ghost use Rattle.grib.specs.Reading.{Adds, Advances, AdvancesOver, Breaks, Keeps, Shows, CountsFaults, behind, current, starting, turns_left};
ghost use Rattle.grib.specs.There.{IsThere};

use crate::sequence::octets_of_first;
use crate::{Message, ReadError};
use grib_io::{ReadSource, Source, Stop};
use grib_stream::{Rest, Window, gather, octets_before_mark};
use grib2_sections::read_head;
use std::alloc::Global;
use std::io::Read;
use std::marker::Model;

/// How many octets tell the edition and the total length of a message of either edition.
const HEAD: usize = 16;

/// Gives the messages of an input that comes in pieces, one after the other. It holds the octets of one message, and what
/// was read ahead. What it gives is what `messages` gives of the octets of the input, however they come.
///
/// ```
/// let mut reader = Reader::from_reader(alloc, rt.stdin());
/// while reader.advance()? {
///     let message = reader.message()?;
///     println!(rt; "{}", message.field_count())?;
/// }
/// ```
#[derive(Drop)]
pub struct Reader<S> {
    alloc: Global,
    source: S,
    /// The octets that were read, from the message on at which the reader stands.
    window: Window,
    /// How many of these are that message, or are refused as one: 0 where the reader stands at none.
    size: usize,
    /// How many octets of the input stand before these.
    place: u64,
    /// How many octets may still be taken of the source.
    quota: u64,
    /// Whether no more are.
    ended: bool,
}

impl<S> Model for Reader<S> {
    ghost use Rattle.std.specs.Prelude.{◌≡◌, ◌+◌, ◌-◌, ◌^◌, ◌<◌, ◌≤◌, false, length};
    ghost use Rattle.grib.specs.Reading.{Reading};
    ghost use Rattle.grib.specs.Within.{IsWithin};

    ghost Value = { Reading S };

    ghost view = { λ reader. record { source = reader.source; ahead = reader.window.octets; size = reader.size; place = reader.place; quota = reader.quota; ended = reader.ended } };

    ghost invariant = { λ reader. IsWithin reader.window.octets reader.size reader.place reader.quota reader.ended };
}

impl<R: Read> Reader<ReadSource<R>> {
    /// A reader over a reader of std, at the beginning of its input. It takes no memory before it reads.
    pub fn from_reader(alloc: Global, reader: R) -> Reader<ReadSource<R>>
        ensures { result ≡ starting (record { reader = reader; faults = 0 }) }
    {
        Reader::new(alloc, ReadSource::new(reader))
    }
}

impl<S: Source> Reader<S> {
    /// A reader at the beginning of the octets that are left of a source. It takes no memory before it reads.
    pub fn new(alloc: Global, source: S) -> Reader<S>
        ensures { result ≡ starting source }
    {
        Reader {
            alloc,
            source,
            window: Window::new(alloc),
            size: 0,
            place: 0,
            quota: u64::MAX,
            ended: false,
        }
    }

    /// Goes on to the next message, or to octets that are refused as one, and answers whether there is one. Each begins
    /// at the next `GRIB`; what stands between messages is skipped. Octets that are refused are skipped up to the length
    /// that they state if `7777` stands there, and else their `GRIB` alone is.
    ///
    /// # Errors
    ///
    /// The source failed, there is no memory, or the input is longer than 18,446,744,073,709,551,615 octets. After an
    /// error nothing comes.
    ///
    /// A loop over it ends: `turns_left` falls with each message, and is the measure of such a loop.
    pub fn advance(&mut self) -> Result<bool, ReadError>
        ensures taken { Advances S.left self.old self.new result }
        ensures told { AdvancesOver S.left self.old self.new result }
        ensures counted { CountsFaults result (S.faults self.old.source) (S.faults self.new.source) }
        ensures nearer { IfOk result (λ some. IsTrue some → turns_left self.new < turns_left self.old) }
    {
        let size = self.size;
        self.pass(size);
        if !self.find_mark()? {
            let count = self.window.len();
            self.pass(count);
            return Ok(false);
        }
        self.gather_message()?;
        self.size = octets_of_first(self.window.as_slice());
        Ok(true)
    }

    /// The message at which the reader stands. It borrows the reader.
    ///
    /// # Errors
    ///
    /// The message is refused; or the reader stands at none, since it did not advance yet or there is no other; or there
    /// is no memory.
    pub fn message(&self) -> Result<Message<'_>, ReadError>
        ensures { Shows (current self.now) result }
    {
        if self.size == 0 {
            return Err(ReadError::NoMessage);
        }
        Message::at(self.alloc, self.window.as_slice(), self.place)
    }

    /// The source.
    pub fn source(&self) -> &S
        ensures { result.now ≡ self.now.source }
    {
        &self.source
    }

    /// The source again, of which some octets may have been read ahead.
    pub fn into_source(self) -> S
        ensures { result ≡ self.source }
    {
        self.source
    }

    /// Goes past this many octets of those that were read.
    fn pass(&mut self, count: usize)
        requires { count ≤ length self.old.ahead }
        ensures { self.new ≡ behind self.old count }
    {
        self.window.pass(count);
        self.place += count as u64;
        self.size = 0;
    }

    /// Goes on to the first `GRIB`, and answers whether there is one. Where there is none, fewer than four octets are left.
    fn find_mark(&mut self) -> Result<bool, ReadError>
        requires { self.old.size ≡ 0 }
        ensures keeps { IfOk result (λ _. Keeps S.left self.old self.new) }
        ensures none { OnOk result (self.new.size ≡ 0) }
        ensures begun { result ≡ Ok true → begins self.new.ahead ≡ true }
        ensures few { result ≡ Ok false → (self.new.ended ≡ true) × (length self.new.ahead < 4) }
        ensures breaks { IfErr result (Breaks S.left self.old self.new) }
        ensures counted { CountsFaults result (S.faults self.old.source) (S.faults self.new.source) }
    {
        loop {
            let before = octets_before_mark(self.window.as_slice());
            self.pass(before);
            if self.window.len() >= 4 {
                return Ok(true);
            }
            if self.ended {
                return Ok(false);
            }
            self.read_to(4)?;
        }
    }

    /// Reads as many octets as the message states at which the reader stands, as far as the input goes.
    fn gather_message(&mut self) -> Result<(), ReadError>
        requires none { self.old.size ≡ 0 }
        requires begun { begins self.old.ahead ≡ true }
        ensures keeps { IfOk result (λ _. Keeps S.left self.old self.new) }
        ensures none { OnOk result (self.new.size ≡ 0) }
        ensures begun { OnOk result (begins self.new.ahead ≡ true) }
        ensures there { OnOk result ((self.new.ended ≡ true) ⊎ IsThere self.new.ahead) }
        ensures breaks { IfErr result (Breaks S.left self.old self.new) }
        ensures counted { CountsFaults result (S.faults self.old.source) (S.faults self.new.source) }
    {
        self.read_to(HEAD)?;
        let stated = read_head(self.window.as_slice());
        if let Ok(head) = stated {
            self.read_to(head.total as usize)?;
        }
        Ok(())
    }

    /// Reads until this many octets are there, as far as the input goes.
    fn read_to(&mut self, wanted: usize) -> Result<(), ReadError>
        requires { self.old.size ≡ 0 }
        ensures adds { IfOk result (λ _. Adds S.left self.old self.new wanted) }
        ensures breaks { IfErr result (Breaks S.left self.old self.new) }
        ensures counted { CountsFaults result (S.faults self.old.source) (S.faults self.new.source) }
    {
        if self.ended || self.window.len() >= wanted {
            return Ok(());
        }
        match gather(&mut self.window, &mut self.source, wanted, &mut self.quota) {
            Ok(Rest::Open) => Ok(()),
            Ok(Rest::Ended) => {
                self.ended = true;
                Ok(())
            }
            Ok(Rest::Full) => Err(self.stop(ReadError::TooLong)),
            Err(Stop::Failed) => Err(self.stop(ReadError::Source)),
            Err(Stop::Memory) => Err(self.stop(ReadError::Memory)),
        }
    }

    /// Gives up: nothing is left.
    fn stop(&mut self, error: ReadError) -> ReadError
        ensures error { result ≡ error }
        ensures source { self.new.source ≡ self.old.source }
        ensures ended { self.new.ended ≡ true }
        ensures none { self.new.ahead ≡ [] }
        ensures size { self.new.size ≡ 0 }
    {
        let count = self.window.len();
        self.pass(count);
        self.ended = true;
        error
    }
}
