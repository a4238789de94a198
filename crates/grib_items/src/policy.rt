//! What a run does where octets are refused or a message cannot be changed, and what was counted.

ghost use Rattle.std.specs.Prelude.{◌≡◌};
ghost use Rattle.grib_items.specs.Turning as turns;

use grib_stream::Totals;

/// What is written instead.
#[derive(Clone, Copy, Debug, PartialEq, Eq)]
pub enum Instead {
    /// The octets as they are.
    Copy,
    /// Nothing.
    Pass,
}

/// What a run does with what it cannot answer. Without either it ends there.
#[derive(Clone, Copy, Debug, PartialEq, Eq)]
pub struct Policy {
    /// What is written for octets that are refused, up to their stated end; none where the run ends there. A `GRIB`
    /// alone, whose octets state no end or have none there, is always skipped.
    pub refused: Option<Instead>,
    /// What is written instead of a message that cannot be changed; none where the run ends there.
    pub kept: Option<Instead>,
}

impl Policy {
    /// Whether the run ends at the first refusal and at the first message that cannot be changed.
    pub(crate) fn passes_nothing(&self) -> bool
        ensures { result ≡ turns.passes_nothing self.now }
    {
        self.refused.is_none() && self.kept.is_none()
    }
}

/// What was counted of an input that was read to its end.
#[derive(Clone, Copy, Debug, PartialEq, Eq)]
pub struct ItemTotals {
    /// Messages that were accepted, and the octets that belong to none.
    pub counted: Totals,
    /// Refusals that were skipped or copied.
    pub refused: u64,
    /// Messages that were not changed.
    pub kept: u64,
}
