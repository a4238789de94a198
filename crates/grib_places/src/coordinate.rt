//! What tells a place.

/// What tells a place.
#[derive(Clone, Copy, Debug, PartialEq, Eq)]
pub enum Coordinate {
    Latitude,
    Longitude,
}
