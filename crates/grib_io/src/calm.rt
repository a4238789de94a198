//! A source and a sink in memory that never fail.

ghost use Rattle.std.specs.Prelude.{◌≡◌, ◌≤◌, ◌<◌, Some, min, [], true, Ok, IfErr, IfOk, MatchResult, length, drop};
ghost use Rattle.std.specs.Io.{ReadsAtMost, WritesAtMost};
ghost use Rattle.std.specs.Io.KnownBytes.{ReadConsumes, WriteAppends, Keeps};
ghost use Rattle.grib_io.specs.Outside.{CountsFailure, CountsStops, Settles};
ghost use Rattle.grib_io.specs.Memory.{count_given};

use crate::feed::Feed;
use crate::outside::{Failed, Sink, Source, Stop};
use crate::storage::Storage;
use std::alloc::Global;
use std::marker::Model;

/// Octets in memory as a source that never fails. A read gives a piece at most.
#[derive(Debug, Drop)]
pub struct CalmSource {
    feed: Feed,
}

impl Model for CalmSource {
    ghost use Rattle.grib_io.specs.Memory.{Supply};

    ghost Value = { Supply };

    ghost view = { λ source. source.feed };
}

impl CalmSource {
    /// A source of these octets, which gives `piece` octets at most, one at least, in a read. It takes
    /// no memory.
    pub fn new(octets: Vec<u8>, piece: usize) -> CalmSource
        requires { 1 ≤ piece }
        ensures left { result.left ≡ octets.items }
        ensures piece { result.piece ≡ piece }
    {
        CalmSource {
            feed: Feed::new(octets, piece),
        }
    }
}

impl Source for CalmSource {
    ghost left = { λ source. Some source.left };

    ghost faults = { λ _. 0 };

    fn read(&mut self, into: &mut [u8]) -> Result<usize, Failed>
        ensures bound { ReadsAtMost result into.new }
        ensures octets { ReadConsumes (Some self.old.left) (Some self.new.left) result into.new }
        ensures counted { CountsFailure result 0 0 }
        ensures answer { result ≡ Ok (count_given self.old.left self.old.piece (length into.old)) }
        ensures rest { IfOk result (λ count. drop count into.new ≡ drop count into.old) }
        ensures piece { self.new.piece ≡ self.old.piece }
    {
        Ok(self.feed.give(into))
    }
}

/// A sink that keeps its octets in memory and never fails. A write takes a piece at most.
#[derive(Debug, Drop)]
pub struct CalmSink {
    storage: Storage,
}

impl Model for CalmSink {
    ghost use Rattle.grib_io.specs.Memory.{Store};

    ghost Value = { Store };

    ghost view = { λ sink. sink.storage };
}

impl CalmSink {
    /// A sink without octets, of which a write takes `piece` octets at most, one at least.
    pub fn new(alloc: Global, piece: usize) -> CalmSink
        requires { 1 ≤ piece }
        ensures octets { result.octets ≡ [] }
        ensures piece { result.piece ≡ piece }
        ensures settled { result.settled ≡ true }
    {
        CalmSink {
            storage: Storage::new(alloc, piece),
        }
    }

    /// The octets that were written.
    pub fn octets(&self) -> &[u8]
        ensures { result.now ≡ self.now.octets }
    {
        self.storage.as_slice()
    }
}

impl Sink for CalmSink {
    ghost contents = { λ sink. Some sink.octets };

    ghost faults = { λ _. 0 };

    ghost settled = { λ sink. sink.settled };

    ghost takes_memory = { true };

    fn write(&mut self, piece: &[u8]) -> Result<usize, Stop>
        ensures bound { WritesAtMost result piece.now }
        ensures some { IfOk result (λ count. 0 < length piece.now → 0 < count) }
        ensures octets { WriteAppends (Some self.old.octets) (Some self.new.octets)
            result piece.now }
        ensures settled { Settles result self.old.settled self.new.settled }
        ensures counted { CountsStops result 0 0 }
        ensures count { IfOk result (λ count. count ≡ min self.old.piece (length piece.now)) }
        ensures stop { IfErr result (λ stop. stop ≡ Stop.Memory) }
        ensures piece { self.new.piece ≡ self.old.piece }
    {
        Ok(self.storage.add(piece)?)
    }

    fn pass_on(&mut self) -> Result<(), Stop>
        ensures octets { Keeps (Some self.old.octets) (Some self.new.octets) }
        ensures settled { self.new.settled ≡ self.old.settled }
        ensures counted { CountsStops result 0 0 }
        ensures answer { result ≡ Ok tt }
        ensures sink { self.new ≡ self.old }
    {
        Ok(())
    }

    fn finish(&mut self) -> Result<(), Stop>
        ensures octets { Keeps (Some self.old.octets) (Some self.new.octets) }
        ensures settled { MatchResult result (λ _. self.new.settled ≡ true)
            (λ _. self.new.settled ≡ self.old.settled) }
        ensures counted { CountsStops result 0 0 }
        ensures answer { result ≡ Ok tt }
        ensures piece { self.new.piece ≡ self.old.piece }
    {
        self.storage.settle();
        Ok(())
    }
}
