//! The coordinates of the points of a grid, worked out once for each of its rows and columns.

ghost use Rattle.std.specs.Prelude.{◌≡◌, length};
ghost use Rattle.grib_places.specs.Steps.{steps_in};

use crate::coordinate::Coordinate;
use crate::order::StepOrder;

/// The latitudes or the longitudes of the points of a grid in degrees, as words of IEEE 754 binary64.
#[derive(Debug, Drop)]
pub struct PlaceWords {
    pub(crate) order: StepOrder,
    pub(crate) coordinate: Coordinate,
    pub(crate) words: Vec<u64>,
    ghost words_stand: { length words.items ≡ steps_in coordinate order },
}

/// The latitudes or the longitudes of the points of a grid in 10^-6 degree.
#[derive(Debug, Drop)]
pub struct PlaceMicros {
    pub(crate) order: StepOrder,
    pub(crate) coordinate: Coordinate,
    pub(crate) micros: Vec<i64>,
    ghost micros_stand: { length micros.items ≡ steps_in coordinate order },
}
