//! What Section 4 holds.

use crate::{Ensemble, Instant, Interval};
use grib_base::List;

/// A product by its template.
#[derive(Debug, Drop)]
pub enum Product {
    /// Template 4.0.
    Instant(Instant),
    /// Template 4.1.
    Ensemble(Instant, Ensemble),
    /// Template 4.8.
    Interval(Instant, Interval),
    /// Template 4.11.
    EnsembleInterval(Instant, Ensemble, Interval),
}

/// What Section 4 says of a field (WMO-No. 306, Volume I.2, FM 92 GRIB edition 2, Section 4). Each
/// field has the number of its octets as they stand.
#[derive(Debug, Drop)]
pub struct ProductSection {
    /// The words of the coordinate values, in IEEE 754 binary32: octets 6-7 are their number, and they
    /// stand after the template.
    pub coordinates: List<u32>,
    /// The template's numbers: octets 8-9, and octet 10 onwards.
    pub product: Product,
}
