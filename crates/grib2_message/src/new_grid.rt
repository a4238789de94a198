//! Another grid for a message.

ghost use Rattle.std.specs.Prelude.{◌≡◌, ◌++◌, ℕ, List, length, IfOk};
ghost use Rattle.std.proofs.Common.{refl};
ghost use Rattle.grib2_message.specs.Assembled.{as_it_is};

use std::alloc::{AllocError, Global};

/// Another grid for a message: what its Sections 3 become, in as many octets (WMO-No. 306, Volume I.2, FM 92
/// GRIB edition 2).
pub trait NewGrid {
    // a Section 3 that becomes another
    ghost takes: { Self → List ℕ → Type 0 };
    // what it becomes
    ghost becomes: { Self → List ℕ → List ℕ };

    /// Appends what a Section 3 becomes.
    ///
    /// # Errors
    ///
    /// There is no memory.
    fn put(&self, alloc: Global, section: &[u8], out: &mut Vec<u8>) -> Result<(), AllocError>
        requires { takes self.now section.now }
        ensures { IfOk result (λ _. out.new.items ≡ out.old.items ++ becomes self.now section.now) };

    // it keeps its length
    ghost as_long: { (grid : Self) (section : List ℕ) → takes grid section
        → length (becomes grid section) ≡ length section };
}

/// The grid that the message has.
pub(crate) struct SameGrid;

impl NewGrid for SameGrid {
    ghost takes = { λ _ _. Unit {0} };

    ghost becomes = { λ _. as_it_is };

    ghost as_long = { λ _ _ _. refl };

    fn put(&self, _: Global, section: &[u8], out: &mut Vec<u8>) -> Result<(), AllocError> {
        out.extend_from_slice(section)
    }
}
