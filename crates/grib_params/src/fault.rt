//! Why a text is no table.

use thiserror::Error;

/// Why a text is no table. Records count from 1.
#[derive(Clone, Copy, Debug, Drop, PartialEq, Eq, Error)]
pub enum TableFault {
    /// The text has more than 1,048,576 octets.
    #[error("the table has more than 1048576 octets")]
    TooLarge,
    /// This record does not have the fields of a row.
    #[error("record {0} of the table is no row")]
    Row(u64),
    /// An earlier record has what no two records may share.
    #[error("record {0} of the table repeats an earlier one")]
    Duplicate(u64),
    /// There is no memory.
    #[error("no memory for the table")]
    Memory,
}
