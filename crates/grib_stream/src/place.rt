//! Where a message stands in an input, and what was counted.

/// Where a message stands in its input.
#[derive(Clone, Copy, Debug, PartialEq, Eq)]
pub struct Place {
    /// The message's number, from 1.
    pub message: u64,
    /// How many octets of the input stand before it.
    pub before: u64,
    /// How many fields the messages before it have.
    pub fields: u64,
}

/// What was counted of an input.
#[derive(Clone, Copy, Debug, PartialEq, Eq)]
pub struct Totals {
    /// The messages.
    pub messages: u64,
    /// Their fields.
    pub fields: u64,
    /// The octets that belong to no message.
    pub skipped: u64,
    /// The octets of the messages' results, as far as they are counted.
    pub written: u64,
}
