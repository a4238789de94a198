//! What Section 3 holds.

use crate::{Gaussian, Lambert, LatLon, Mercator, Polar, Rotation};
use grib_base::List;

/// A grid by its template.
#[derive(Clone, Copy, Debug, PartialEq, Eq)]
pub enum Grid {
    /// Template 3.0.
    LatLon(LatLon),
    /// Template 3.1: the grid before the rotation, and the rotation.
    Rotated(LatLon, Rotation),
    /// Template 3.10.
    Mercator(Mercator),
    /// Template 3.20.
    Polar(Polar),
    /// Template 3.30.
    Lambert(Lambert),
    /// Template 3.40.
    Gaussian(Gaussian),
}

/// What Section 3 says of a field (WMO-No. 306, Volume I.2, FM 92 GRIB edition 2, Section 3). Each
/// field has the number of its octets as they stand.
#[derive(Debug, Drop)]
pub struct GridSection {
    /// The number of grid points: octets 7-10.
    pub points: u32,
    /// How many octets each entry of the list of rows has, 0 where there is no list: octet 11.
    pub list_octets: u8,
    /// What the list means (code table 3.11): octet 12.
    pub list_meaning: u8,
    /// The number of points of each row, for a grid whose rows differ in length; else empty. The
    /// list stands after the template.
    pub rows: List<u32>,
    /// The template's numbers: octets 13-14, and octet 15 onwards.
    pub grid: Grid,
}
