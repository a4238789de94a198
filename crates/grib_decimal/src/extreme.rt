//! What is summed up of the points of a field.

/// The least and the greatest scaled number of some points, each with the first place where it stands, from 1.
#[derive(Clone, Copy, Debug, PartialEq, Eq)]
pub struct Extremes {
    pub least: i64,
    pub least_place: u32,
    pub greatest: i64,
    pub greatest_place: u32,
}

/// How many points of a field are present and missing, and the least and the greatest scaled number.
#[derive(Clone, Copy, Debug, PartialEq, Eq)]
pub struct Summary {
    /// The points with a scaled number.
    pub present: u32,
    /// The points that the bitmap leaves out or that are primary missing.
    pub missing: u32,
    /// The points that are secondary missing.
    pub missing2: u32,
    /// None where no point is present.
    pub extremes: Option<Extremes>,
}
