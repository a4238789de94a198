//! The count of the calls of an object in memory, and the numbers of those that are to fail.

ghost use Rattle.std.specs.Prelude.{◌≡◌, ◌^◌, ◌<◌, is_err};
ghost use Rattle.grib_io.specs.Memory.{next_fails, one_more};

use crate::outside::Failed;
use std::marker::Model;

/// Calls by their numbers, which begin at 1.
#[derive(Debug, Drop)]
pub(crate) struct Calls {
    failing: Vec<u64>,
    made: u64,
    faults: u64,
}

impl Model for Calls {
    ghost use Rattle.grib_io.specs.Memory.{Calls as CallsSeen};

    ghost Value = { CallsSeen };

    ghost view = { λ calls. record { failing = calls.failing.items; made = calls.made; faults = calls.faults } };
}

impl Calls {
    /// No call yet.
    pub(crate) fn new(failing: Vec<u64>) -> Calls
        ensures { result ≡ record { failing = failing.items; made = 0; faults = 0 } }
    {
        Calls {
            failing,
            made: 0,
            faults: 0,
        }
    }

    /// Counts a call, and fails exactly where the call is to fail.
    pub(crate) fn count(&mut self) -> Result<(), Failed>
        ensures answer { is_err result ≡ next_fails self.old }
        ensures calls { self.new ≡ one_more self.old }
        // Below 2 ^ 64 a count of faults that goes on does not fall.
        ensures bound { self.old.faults < 2 ^ 64 }
    {
        if self.made == u64::MAX {
            return Ok(());
        }
        self.made += 1;
        if self.failing.contains(&self.made) {
            self.faults = self.faults.saturating_add(1);
            return Err(Failed);
        }
        Ok(())
    }
}
