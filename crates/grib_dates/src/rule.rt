//! What is asked of reference times.

/// Which reference times a message may have after a change.
#[derive(Clone, Copy, Debug, PartialEq, Eq)]
pub enum Dates {
    /// Any numbers that fit their octets.
    Any,
    /// Dates and times of the calendar alone.
    Valid,
}
