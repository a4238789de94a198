//! What of a message of edition 1 has no place in edition 2.

ghost use Rattle.std.specs.Prelude.{◌≡◌, Some};
ghost use Rattle.grib_reasons.specs.Losses.{loss_text, name_of, number_of};

use std::fmt;

/// What would be lost.
#[derive(Clone, Copy, Debug, PartialEq, Eq)]
pub enum Loss {
    /// The table has no row for the centre, the version and the parameter.
    Parameter,
    /// The type of level has no fixed surface, or has a number that the fixed surface has no place
    /// for.
    LevelType,
    /// The unit of time has no place.
    TimeUnit,
    /// The time range has no place, or ends before it begins.
    TimeRange,
    /// The reference time is no date and time of years 1 to 9999, or the interval ends after them.
    Date,
    /// The field is an average of several, or fields are missing at a point in time.
    AverageCount,
    /// Section 1 has octets for the centre's own use, and they are not to be preserved.
    LocalUse,
    /// A flag of the grid, or of its scanning mode, has no place.
    GridFlags,
    /// The number of the grid whose first octet in Section 2 is this one does not fit.
    GridNumber(u32),
    /// This vertical coordinate, counted from 1, has no binary32 word.
    Coordinate(u32),
    /// The reference value has no binary32 word.
    Reference,
}

impl Loss {
    /// The name of the loss, as a note prints it.
    pub fn name(&self) -> &'static str
        ensures { result.now ≡ name_of self.now }
    {
        match self {
            Loss::Parameter => "Parameter",
            Loss::LevelType => "LevelType",
            Loss::TimeUnit => "TimeUnit",
            Loss::TimeRange => "TimeRange",
            Loss::Date => "Date",
            Loss::AverageCount => "AverageCount",
            Loss::LocalUse => "LocalUse",
            Loss::GridFlags => "GridFlags",
            Loss::GridNumber(_) => "GridNumber",
            Loss::Coordinate(_) => "Coordinate",
            Loss::Reference => "Reference",
        }
    }

    /// The octet of the grid's number, or which vertical coordinate it is, which a note prints after the name.
    pub fn number(&self) -> Option<u32>
        ensures { result ≡ number_of self.now }
    {
        match *self {
            Loss::GridNumber(octet) => Some(octet),
            Loss::Coordinate(index) => Some(index),
            _ => None,
        }
    }
}

impl fmt::Display for Loss {
    ghost output = { λ loss. Some (loss_text loss) };

    fn fmt<W: fmt::Write>(&self, f: &mut fmt::Formatter<W>) -> fmt::Result {
        match self.number() {
            Some(number) => write!(f, "{} {number}", self.name()),
            None => f.write_str(self.name()),
        }
    }
}
