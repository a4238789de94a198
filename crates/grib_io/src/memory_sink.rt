//! A sink in memory whose calls fail by their numbers.

ghost use Rattle.std.specs.Prelude.{◌≡◌, ◌≤◌, ◌<◌, Some, min, [], true, Ok, IfErr, IfOk, MatchResult, is_err, length};
ghost use Rattle.std.specs.Io.{WritesAtMost};
ghost use Rattle.std.specs.Io.KnownBytes.{WriteAppends, Keeps};
ghost use Rattle.grib_io.specs.Outside.{CountsStops, Settles};
ghost use Rattle.grib_io.specs.Memory.{next_fails, one_more, FailsWhere};

use crate::calls::Calls;
use crate::outside::{Sink, Stop};
use crate::storage::Storage;
use std::alloc::Global;
use std::marker::Model;

/// A sink that keeps its octets in memory. A write takes a piece at most, and a call of `write` or `finish`
/// fails exactly where its number, counted from 1 over all of these, is among some. Those after the first
/// 2^64 - 1 have no number. It holds nothing back, so that `pass_on` does nothing.
#[derive(Debug, Drop)]
pub struct MemorySink {
    storage: Storage,
    calls: Calls,
}

impl Model for MemorySink {
    ghost use Rattle.grib_io.specs.Memory.{FaultyStore};

    ghost Value = { FaultyStore };

    ghost view = { λ sink. record {
      octets = sink.storage.octets;
      piece = sink.storage.piece;
      settled = sink.storage.settled;
      calls = sink.calls;
    } };
}

impl MemorySink {
    /// A sink without octets, of which a write takes `piece` octets at most, one at least. The calls
    /// with the numbers `failing` fail.
    pub fn new(alloc: Global, piece: usize, failing: Vec<u64>) -> MemorySink
        requires { 1 ≤ piece }
        ensures octets { result.octets ≡ [] }
        ensures piece { result.piece ≡ piece }
        ensures settled { result.settled ≡ true }
        ensures calls { result.calls ≡ record { failing = failing.items; made = 0; faults = 0 } }
    {
        MemorySink {
            storage: Storage::new(alloc, piece),
            calls: Calls::new(failing),
        }
    }

    /// The octets that were written.
    pub fn octets(&self) -> &[u8]
        ensures { result.now ≡ self.now.octets }
    {
        self.storage.as_slice()
    }
}

impl Sink for MemorySink {
    ghost contents = { λ sink. Some sink.octets };

    ghost faults = { λ sink. sink.calls.faults };

    ghost settled = { λ sink. sink.settled };

    ghost takes_memory = { true };

    fn write(&mut self, piece: &[u8]) -> Result<usize, Stop>
        ensures bound { WritesAtMost result piece.now }
        ensures some { IfOk result (λ count. 0 < length piece.now → 0 < count) }
        ensures octets { WriteAppends (Some self.old.octets) (Some self.new.octets)
            result piece.now }
        ensures settled { Settles result self.old.settled self.new.settled }
        ensures counted { CountsStops result self.old.calls.faults self.new.calls.faults }
        ensures failed { FailsWhere (next_fails self.old.calls) result }
        ensures count { IfOk result (λ count. count ≡ min self.old.piece (length piece.now)) }
        ensures piece { self.new.piece ≡ self.old.piece }
        ensures calls { self.new.calls ≡ one_more self.old.calls }
    {
        self.calls.count()?;
        Ok(self.storage.add(piece)?)
    }

    fn pass_on(&mut self) -> Result<(), Stop>
        ensures octets { Keeps (Some self.old.octets) (Some self.new.octets) }
        ensures settled { self.new.settled ≡ self.old.settled }
        ensures counted { CountsStops result self.old.calls.faults self.new.calls.faults }
        ensures answer { result ≡ Ok tt }
        ensures sink { self.new ≡ self.old }
    {
        Ok(())
    }

    fn finish(&mut self) -> Result<(), Stop>
        ensures octets { Keeps (Some self.old.octets) (Some self.new.octets) }
        ensures settled { MatchResult result (λ _. self.new.settled ≡ true)
            (λ _. self.new.settled ≡ self.old.settled) }
        ensures counted { CountsStops result self.old.calls.faults self.new.calls.faults }
        ensures failed { is_err result ≡ next_fails self.old.calls }
        ensures stop { IfErr result (λ stop. stop ≡ Stop.Failed) }
        ensures piece { self.new.piece ≡ self.old.piece }
        ensures calls { self.new.calls ≡ one_more self.old.calls }
    {
        self.calls.count()?;
        self.storage.settle();
        Ok(())
    }
}
