//! The shapes of arrays.

/// The shape of an array.
#[derive(Clone, Copy, Debug, PartialEq, Eq)]
pub enum Shape {
    /// So many rows of so many points, or columns, each of consecutive points.
    Table { outer: u32, inner: u32 },
    /// So many points.
    Points(u32),
}
