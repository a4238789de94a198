//! Octets that are taken in piece by piece.

ghost use Rattle.std.specs.Prelude.{◌≡◌, ◌≤◌, min, [], true, length, take, MatchResult, IfOk};
ghost use Rattle.grib_io.specs.Memory.{after_write};

use std::alloc::{AllocError, Global};
use std::marker::Model;

/// The octets that were taken so far, and how many are taken at once.
#[derive(Debug, Drop)]
pub(crate) struct Storage {
    octets: Vec<u8>,
    piece: usize,
    settled: bool,
}

impl Model for Storage {
    ghost use Rattle.std.specs.Prelude.{◌≤◌};
    ghost use Rattle.grib_io.specs.Memory.{Store};

    ghost Value = { Store };

    ghost view = { λ storage. record { octets = storage.octets.items; piece = storage.piece; settled = storage.settled } };

    ghost invariant = { λ storage. 1 ≤ storage.piece };
}

impl Storage {
    /// Nothing was taken yet.
    pub(crate) fn new(alloc: Global, piece: usize) -> Storage
        requires { 1 ≤ piece }
        ensures { result ≡ record { octets = []; piece = piece; settled = true } }
    {
        Storage {
            octets: Vec::new(alloc),
            piece,
            settled: true,
        }
    }

    /// The octets that were taken.
    pub(crate) fn as_slice(&self) -> &[u8]
        ensures { result.now ≡ self.now.octets }
    {
        self.octets.as_slice()
    }

    /// Takes the front of `piece`, and answers how many octets. Without memory for them it takes none.
    pub(crate) fn add(&mut self, piece: &[u8]) -> Result<usize, AllocError>
        ensures count { IfOk result (λ count. count ≡ min self.old.piece (length piece.now)) }
        ensures store { MatchResult result
            (λ count. self.new ≡ after_write self.old (take count piece.now))
            (λ _. self.new ≡ self.old) }
        // So one octet at least is taken of a piece that is not empty.
        ensures piece { 1 ≤ self.old.piece }
    {
        let count = self.piece.min(piece.len());
        self.octets.extend_from_slice(&piece[..count])?;
        self.settled = self.settled && count == 0;
        Ok(count)
    }

    /// Nothing waits any more.
    pub(crate) fn settle(&mut self)
        ensures { self.new ≡ record { octets = self.old.octets; piece = self.old.piece; settled = true } }
    {
        self.settled = true;
    }
}
