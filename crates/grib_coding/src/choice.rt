//! How the codes of a block are told.

/// How a block of codes is told.
#[derive(Clone, Copy, Debug, PartialEq, Eq)]
pub enum Choice {
    /// As they are.
    Plain,
    /// In pairs, each by its number.
    Second,
    /// Each by what it is divided by 2 to this number, and by what is left.
    Split(u8),
}
