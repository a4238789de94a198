//! Octets that are given out piece by piece.

ghost use Rattle.std.specs.Prelude.{◌≡◌, ◌≤◌, ◌++◌, length, take, drop};
ghost use Rattle.grib_io.specs.Memory.{count_given};

use std::marker::Model;

/// The octets that are left of some, and how many are given at once.
#[derive(Debug, Drop)]
pub(crate) struct Feed {
    octets: Vec<u8>,
    taken: usize,
    piece: usize,
}

impl Model for Feed {
    ghost use Rattle.std.specs.Prelude.{◌≤◌, drop, vec_len};
    ghost use Rattle.grib_io.specs.Memory.{Supply};

    ghost Value = { Supply };

    ghost view = { λ feed. record { left = drop feed.taken feed.octets.items; piece = feed.piece } };

    ghost invariant = { λ feed. (feed.taken ≤ vec_len feed.octets) × (1 ≤ feed.piece) };
}

impl Feed {
    /// All of these octets are left.
    pub(crate) fn new(octets: Vec<u8>, piece: usize) -> Feed
        requires { 1 ≤ piece }
        ensures { result ≡ record { left = octets.items; piece = piece } }
    {
        Feed {
            octets,
            taken: 0,
            piece,
        }
    }

    /// Moves octets to the front of `into`, and answers how many.
    pub(crate) fn give(&mut self, into: &mut [u8]) -> usize
        ensures count { result ≡ count_given self.old.left self.old.piece (length into.old) }
        ensures into { into.new ≡ take result self.old.left ++ drop result into.old }
        ensures left { self.new ≡ record { left = drop result self.old.left; piece = self.old.piece } }
        // So one octet at least is given where there is room for it and one is left.
        ensures piece { 1 ≤ self.old.piece }
    {
        let left = &self.octets[self.taken..];
        let count = self.piece.min(into.len()).min(left.len());
        into[..count].copy_from_slice(&left[..count]);
        self.taken += count;
        count
    }
}
