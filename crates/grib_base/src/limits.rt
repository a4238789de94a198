//! How large messages are at most.

/// The most grid points that a field has.
pub const MOST_POINTS: u32 = 33_554_432;

/// The most octets that a message has.
pub const MOST_OCTETS: u64 = 268_435_456;
