//! The outside: where octets come from, where they go and where they are kept. Code above is proved once
//! for every source, sink and shelf, by what an object has left or holds, where it tells that, and by a
//! count of its faults.

ghost use Rattle.std.specs.Prelude.{◌≡◌, ◌<◌, ℕ, Bool, true, false, List, length, IfErr, IfOk, MatchResult};
ghost use Rattle.std.specs.declared.option.Option.{Option};
ghost use Rattle.std.specs.Io.{ReadsAtMost, WritesAtMost};
ghost use Rattle.std.specs.Io.KnownBytes.{ReadConsumes, WriteAppends, Keeps};
ghost use Rattle.grib_io.specs.declared.outside.Stop.TheVariants.{Failed, Memory};
ghost use Rattle.grib_io.specs.declared.outside.ShelfStop.TheVariants.{Failed as ShelfFailed};
ghost use Rattle.grib_io.specs.Outside.{CountsFailure, CountsStops, Settles};
ghost use Rattle.grib_io.specs.Shelves.{Held, OthersStay, Stays, Turns, ReadsAt, Makes, AddsPiece, CountsShelfRead};

use std::alloc::AllocError;

/// The object failed, as a device does.
#[derive(Clone, Copy, Debug, PartialEq, Eq)]
pub struct Failed;

/// Why a sink or a shelf stopped.
#[derive(Clone, Copy, Debug, PartialEq, Eq)]
pub enum Stop {
    /// The object failed.
    Failed,
    /// There is no memory.
    Memory,
}

impl From<Failed> for Stop {
    ghost from_gives = { λ _ stop. stop ≡ Failed };

    fn from(_failed: Failed) -> Stop {
        Stop::Failed
    }
}

impl From<AllocError> for Stop {
    ghost from_gives = { λ _ stop. stop ≡ Memory };

    fn from(_error: AllocError) -> Stop {
        Stop::Memory
    }
}

/// Why a shelf gave nothing.
#[derive(Clone, Copy, Debug, PartialEq, Eq)]
pub enum ShelfStop {
    /// The name is absent, which is no fault.
    Absent,
    /// The shelf failed.
    Failed,
}

impl From<Failed> for ShelfStop {
    ghost from_gives = { λ _ stop. stop ≡ ShelfFailed };

    fn from(_failed: Failed) -> ShelfStop {
        ShelfStop::Failed
    }
}

/// Where octets come from.
pub trait Source {
    /// The octets that are left, where the object tells them.
    ghost left: { Self → Option (List ℕ) };

    /// How often it failed. The count never falls.
    ghost faults: { Self → ℕ };

    /// Moves the first octets that are left to the front of `into`, and answers how many. It answers 0
    /// for an `into` that is not empty exactly where nothing is left. A failed read takes nothing.
    fn read(&mut self, into: &mut [u8]) -> Result<usize, Failed>
        ensures bound { ReadsAtMost result into.new }
        ensures octets { ReadConsumes (left self.old) (left self.new) result into.new }
        ensures counted { CountsFailure result (faults self.old) (faults self.new) };
}

/// Where octets go.
pub trait Sink {
    /// The octets that it holds, where the object tells them.
    ghost contents: { Self → Option (List ℕ) };

    /// How often it failed. The count never falls.
    ghost faults: { Self → ℕ };

    /// Whether nothing waits for `finish`.
    ghost settled: { Self → Bool };

    /// Whether a call may stop for memory. Else each error is a fault.
    ghost takes_memory: { Bool };

    /// Appends the first octets of `piece`, and answers how many: one at least where there is one. A
    /// refused write appends nothing.
    fn write(&mut self, piece: &[u8]) -> Result<usize, Stop>
        ensures bound { WritesAtMost result piece.now }
        ensures some { IfOk result (λ count. 0 < length piece.now → 0 < count) }
        ensures octets { WriteAppends (contents self.old) (contents self.new) result piece.now }
        ensures settled { Settles result (settled self.old) (settled self.new) }
        ensures counted { CountsStops result (faults self.old) (faults self.new) }
        ensures memory { takes_memory ≡ false → IfErr result (λ stop. stop ≡ Stop.Failed) };

    /// Passes on what a lower layer holds back, so that a reader behind it has it. It changes no contents, and
    /// claims nothing of what is settled.
    fn pass_on(&mut self) -> Result<(), Stop>
        ensures octets { Keeps (contents self.old) (contents self.new) }
        ensures settled { settled self.new ≡ settled self.old }
        ensures counted { CountsStops result (faults self.old) (faults self.new) }
        ensures memory { takes_memory ≡ false → IfErr result (λ stop. stop ≡ Stop.Failed) };

    /// Passes on what a lower layer holds back. It changes no contents.
    fn finish(&mut self) -> Result<(), Stop>
        ensures octets { Keeps (contents self.old) (contents self.new) }
        ensures settled { MatchResult result (λ _. settled self.new ≡ true)
            (λ _. settled self.new ≡ settled self.old) }
        ensures counted { CountsStops result (faults self.old) (faults self.new) }
        ensures memory { takes_memory ≡ false → IfErr result (λ stop. stop ≡ Stop.Failed) };
}

/// Where octets are kept under names.
pub trait Shelf {
    /// The octets under each name, where the object tells them.
    ghost contents: { Self → Option Held };

    /// How often it failed. The count never falls.
    ghost faults: { Self → ℕ };

    /// Copies octets of the name, from `offset` on, to the front of `into`, and answers how many. It
    /// answers 0 for an `into` that is not empty exactly where the offset is at or past the end. An
    /// absent name is no fault. It changes no contents.
    fn read_at(&mut self, name: &str, offset: u64, into: &mut [u8]) -> Result<usize, ShelfStop>
        ensures bound { ReadsAtMost result into.new }
        ensures octets { ReadsAt (contents self.old) name.now offset result into.new }
        ensures kept { Stays (contents self.old) (contents self.new) }
        ensures counted { CountsShelfRead result (faults self.old) (faults self.new) };

    /// Makes the name present and empty. A call that is refused leaves it so, or as it was. All other
    /// names stay as they are.
    fn make(&mut self, name: &str) -> Result<(), Stop>
        ensures octets { Turns (contents self.old) (contents self.new) name.now (Makes result) }
        ensures others { OthersStay (contents self.old) (contents self.new) name.now }
        ensures counted { CountsStops result (faults self.old) (faults self.new) };

    /// Adds the piece at the end of the name, which it makes first where it is absent. A call that is
    /// refused may have made the name, and may have added some front of the piece. All other names
    /// stay as they are.
    fn append(&mut self, name: &str, piece: &[u8]) -> Result<(), Stop>
        ensures octets { Turns (contents self.old) (contents self.new) name.now
            (AddsPiece result piece.now) }
        ensures others { OthersStay (contents self.old) (contents self.new) name.now }
        ensures counted { CountsStops result (faults self.old) (faults self.new) };
}
