//! What is wrong with coded blocks.

use thiserror::Error;

/// Why coded bits were not read to the end.
#[derive(Clone, Copy, Debug, PartialEq, Eq, Error)]
pub enum BlockFault {
    /// The bits end before an item does.
    #[error("the bits end before an item does")]
    Short,
    /// A run of zero blocks goes past the end of its interval, or a sequence of a second extension is over 90: the
    /// first block of the item, from 1.
    #[error("the item of block {0} is out of range")]
    Block(u32),
    /// The code of a value is over the greatest number: the place of the value, from 1.
    #[error("the code of value {0} is too great")]
    Value(u32),
}
