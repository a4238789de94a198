//! How the points of a grid follow one another.

ghost use Rattle.std.specs.Prelude.{◌≡◌, ◌<◌};
ghost use Rattle.grib_rescan.specs.Scanning.{turned, scanning_of, exchanged};

/// The scanning mode of a grid: bits 1 to 4 of its octet (WMO-No. 306, Volume I.2, FM 92 GRIB edition 2, flag
/// table 3.4).
#[derive(Clone, Copy, Debug, PartialEq, Eq)]
pub struct Scanning {
    /// Bit 1: points of a row go from the east to the west.
    pub westward: bool,
    /// Bit 2: points of a column go from the south to the north.
    pub northward: bool,
    /// Bit 3: points of a column are consecutive, else those of a row.
    pub by_columns: bool,
    /// Bit 4: adjacent rows go in opposite directions, and adjacent columns where they are consecutive.
    pub alternates: bool,
}

impl Scanning {
    /// The flags of a scanning mode octet.
    pub fn of(octet: u8) -> Scanning
        ensures { result ≡ scanning_of octet }
    {
        Scanning {
            westward: octet / 128 % 2 == 1,
            northward: octet / 64 % 2 == 1,
            by_columns: octet / 32 % 2 == 1,
            alternates: octet / 16 % 2 == 1,
        }
    }

    /// How the points follow one another in the grid that has the columns of this one, whose points are
    /// consecutive, for rows.
    pub(crate) fn exchanged(self) -> Scanning
        ensures { result ≡ exchanged self }
    {
        Scanning {
            westward: self.northward,
            northward: self.westward,
            by_columns: false,
            alternates: self.alternates,
        }
    }
}

/// The k-th of `count` places from 0, from the other end if `turns`.
#[inline]
pub fn turn(turns: bool, count: usize, k: usize) -> usize
    requires { k < count }
    ensures place { result ≡ turned turns count k }
    ensures within { result < count }
{
    if turns { count - 1 - k } else { k }
}
