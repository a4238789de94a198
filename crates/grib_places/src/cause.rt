//! Why the places of the points of a grid are not told.

ghost use Rattle.std.specs.Prelude.{◌≡◌};
ghost use Rattle.grib_rescan.specs.Sections.{HasTemplate};
ghost use Rattle.grib_places.specs.Places.{place_cause_of};

use grib_bits::{u8_at, u16_at, u32_at};

/// Why the places of the points of a grid are not told.
#[derive(Clone, Copy, Debug, PartialEq, Eq)]
pub enum PlaceCause {
    /// The grid is not one that template 3.0 defines, without a list of rows, or its basic angle is not 0.
    GridKind,
    /// The scanning mode has one of bits 5 to 8.
    ScanMode,
}

/// Why the places of the points of a grid with this Section 3 are not told, if they are not (WMO-No. 306, Volume I.2, FM 92
/// GRIB edition 2, grid definition template 3.0, flag table 3.4): the grid is not one of template 3.0 without a list of rows, or
/// its basic angle is not 0; or the scanning mode has one of bits 5 to 8.
pub fn place_cause(section: &[u8]) -> Option<PlaceCause>
    requires { HasTemplate section.now }
    ensures { result ≡ place_cause_of section.now }
{
    if u8_at(section, 6) != 0 || u16_at(section, 13) != 0 || u8_at(section, 11) != 0 {
        return Some(PlaceCause::GridKind);
    }
    if u32_at(section, 39) != 0 {
        return Some(PlaceCause::GridKind);
    }
    if u8_at(section, 72) % 16 != 0 {
        return Some(PlaceCause::ScanMode);
    }
    None
}
