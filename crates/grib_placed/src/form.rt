//! How a point is printed.

use grib_decimal::DecimalScale;

/// How a point is printed: as its scaled number, or as its value.
#[derive(Debug, Drop)]
pub(crate) enum PointForm {
    Numbers,
    Decimals(DecimalScale),
}
