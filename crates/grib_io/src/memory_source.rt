//! A source in memory whose calls fail by their numbers.

ghost use Rattle.std.specs.Prelude.{◌≡◌, ◌≤◌, Some, IfOk, MatchResult, is_err, length, drop};
ghost use Rattle.std.specs.Io.{ReadsAtMost};
ghost use Rattle.std.specs.Io.KnownBytes.{ReadConsumes};
ghost use Rattle.grib_io.specs.Outside.{CountsFailure};
ghost use Rattle.grib_io.specs.Memory.{next_fails, one_more, count_given};

use crate::calls::Calls;
use crate::feed::Feed;
use crate::outside::{Failed, Source};
use std::marker::Model;

/// Octets in memory as a source. A read gives a piece at most, and fails exactly where its number,
/// counted from 1, is among some. The calls after the first 2^64 - 1 have no number.
#[derive(Debug, Drop)]
pub struct MemorySource {
    feed: Feed,
    calls: Calls,
}

impl Model for MemorySource {
    ghost use Rattle.grib_io.specs.Memory.{FaultySupply};

    ghost Value = { FaultySupply };

    ghost view = { λ source. record { left = source.feed.left; piece = source.feed.piece; calls = source.calls } };
}

impl MemorySource {
    /// A source of these octets, which gives `piece` octets at most, one at least, in a read. The reads
    /// with the numbers `failing` fail. It takes no memory.
    pub fn new(octets: Vec<u8>, piece: usize, failing: Vec<u64>) -> MemorySource
        requires { 1 ≤ piece }
        ensures left { result.left ≡ octets.items }
        ensures piece { result.piece ≡ piece }
        ensures calls { result.calls ≡ record { failing = failing.items; made = 0; faults = 0 } }
    {
        MemorySource {
            feed: Feed::new(octets, piece),
            calls: Calls::new(failing),
        }
    }
}

impl Source for MemorySource {
    ghost left = { λ source. Some source.left };

    ghost faults = { λ source. source.calls.faults };

    fn read(&mut self, into: &mut [u8]) -> Result<usize, Failed>
        ensures bound { ReadsAtMost result into.new }
        ensures octets { ReadConsumes (Some self.old.left) (Some self.new.left) result into.new }
        ensures counted { CountsFailure result self.old.calls.faults self.new.calls.faults }
        ensures failed { is_err result ≡ next_fails self.old.calls }
        ensures count { IfOk result (λ count. count
            ≡ count_given self.old.left self.old.piece (length into.old)) }
        ensures rest { MatchResult result (λ count. drop count into.new ≡ drop count into.old)
            (λ _. into.new ≡ into.old) }
        ensures piece { self.new.piece ≡ self.old.piece }
        ensures calls { self.new.calls ≡ one_more self.old.calls }
    {
        self.calls.count()?;
        Ok(self.feed.give(into))
    }
}
