//! Why the points of a grid are not put in another order, or no subarea is cut out.

ghost use Rattle.std.specs.Prelude.{◌≡◌};
ghost use Rattle.grib_rescan.specs.Sections.{HasTemplate};
ghost use Rattle.grib_rescan.specs.Causes.{rescan_cause_of, crop_cause_of, within_cause_of};

use crate::bounds::{Bounds, area_in};
use crate::points::Area;
use crate::section::steps_stand;
use grib_bits::{u8_at, u16_at, u32_at};

/// Why the points of a grid are not put in another order, or no subarea is cut out.
#[derive(Clone, Copy, Debug, PartialEq, Eq)]
pub enum GridCause {
    /// The grid is not one that template 3.0 defines, without a list of rows.
    GridKind,
    /// The scanning mode is not one that can be read.
    ScanMode,
    /// The subarea does not lie in the grid, or the points within the bounds are none or no box of it.
    OutsideBox,
    /// The first and the last point are not those that the increments give.
    Increments,
}

/// Why a grid with this Section 3 is not put in the order of scanning octet 0, if it is not (WMO-No. 306,
/// Volume I.2, FM 92 GRIB edition 2, grid definition template 3.0, flag table 3.4).
pub fn rescan_cause(section: &[u8]) -> Option<GridCause>
    requires { HasTemplate section.now }
    ensures { result ≡ rescan_cause_of section.now }
{
    if u8_at(section, 6) != 0 || u16_at(section, 13) != 0 || u8_at(section, 11) != 0 {
        return Some(GridCause::GridKind);
    }
    if u8_at(section, 72) % 16 != 0 {
        return Some(GridCause::ScanMode);
    }
    None
}

/// Why this subarea is not cut out of a grid with this Section 3, if it is not (WMO-No. 306, Volume I.2, FM 92
/// GRIB edition 2, grid definition template 3.0, flag table 3.4).
pub fn crop_cause(section: &[u8], area: &Area) -> Option<GridCause>
    requires { HasTemplate section.now }
    ensures { result ≡ crop_cause_of area.now section.now }
{
    if u8_at(section, 6) != 0 || u16_at(section, 13) != 0 || u8_at(section, 11) != 0 {
        return Some(GridCause::GridKind);
    }
    if u8_at(section, 72) != 0 {
        return Some(GridCause::ScanMode);
    }
    if area.i1 >= u32_at(section, 31) || area.j1 >= u32_at(section, 35) {
        return Some(GridCause::OutsideBox);
    }
    if !steps_stand(section) {
        return Some(GridCause::Increments);
    }
    None
}

/// Why the points within bounds are not cut out of a grid with this Section 3, if they are not (WMO-No. 306, Volume
/// I.2, FM 92 GRIB edition 2, grid definition template 3.0, flag table 3.4). The increments have to be known before
/// these points can be looked for.
pub fn within_cause(section: &[u8], bounds: &Bounds) -> Option<GridCause>
    requires { HasTemplate section.now }
    ensures { result ≡ within_cause_of bounds.now section.now }
{
    if u8_at(section, 6) != 0 || u16_at(section, 13) != 0 || u8_at(section, 11) != 0 {
        return Some(GridCause::GridKind);
    }
    if u8_at(section, 72) != 0 {
        return Some(GridCause::ScanMode);
    }
    if !steps_stand(section) {
        return Some(GridCause::Increments);
    }
    if area_in(section, bounds).is_none() {
        return Some(GridCause::OutsideBox);
    }
    None
}
