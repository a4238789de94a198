//! The places of the points of a grid as text.

use crate::whole::WholeText;
use grib_places::{DegreesText, PlaceMicros};

/// The places of the points of a grid, and how they are printed.
#[derive(Debug, Drop)]
pub(crate) struct PlaceTexts {
    pub(crate) latitudes: PlaceMicros,
    pub(crate) longitudes: PlaceMicros,
    pub(crate) degrees: DegreesText,
    pub(crate) whole: WholeText,
}
