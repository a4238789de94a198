//! What of a field of edition 2 has no place in edition 1.

ghost use Rattle.std.specs.Prelude.{◌≡◌, Some};
ghost use Rattle.grib_reasons.specs.Demotions.{demotion_text, name_of, number_of};

use std::fmt;

/// What would be lost. Points and vertical coordinates count from 1.
#[derive(Clone, Copy, Debug, PartialEq, Eq)]
pub enum Demotion {
    /// The product is not one of template 4.0 or 4.8.
    Product,
    /// The grid is not one of template 3.0, 3.10, 3.20, 3.30 or 3.40.
    GridTemplate,
    /// The centre or the sub-centre has no place in one octet.
    Centre,
    /// The table has no version and parameter for the centre that stand for the parameter.
    Parameter,
    /// No type of level has these fixed surfaces.
    Level,
    /// The unit of time has no place.
    TimeUnit,
    /// The type of generating process has no place, or the forecast time has none with it.
    Process,
    /// The reference time is no date and time of years 1 to 9999, or not on the minute.
    Date,
    /// The interval is not one time range that edition 1 tells, or does not end where its time range does.
    Interval,
    /// There are octets for the centre's own use, and they are not to be preserved.
    LocalUse,
    /// The earth is neither of the two of edition 1, and not any earth will do.
    EarthShape,
    /// A flag of the grid, or of its scanning mode, has no place.
    GridFlags,
    /// The list of rows has another meaning, or a row has more than 65,535 points.
    RowList,
    /// The number of the grid whose first octet in Section 3 is this one does not fit.
    GridNumber(u32),
    /// This vertical coordinate has no IBM word, or is one of more than 255.
    Coordinate(u32),
    /// The reference value has no IBM word.
    Reference,
    /// This point is secondary missing, which edition 1 cannot tell.
    SecondaryMissing(u32),
    /// The scaled integer of this point is negative or has more than 48 bits.
    OutOfRange(u32),
    /// The message would have this many octets, which are more than 16,777,215.
    TooLong(u64),
}

impl Demotion {
    /// The name of the loss, as a note prints it.
    pub fn name(&self) -> &'static str
        ensures { result.now ≡ name_of self.now }
    {
        match self {
            Demotion::Product => "Product",
            Demotion::GridTemplate => "GridTemplate",
            Demotion::Centre => "Centre",
            Demotion::Parameter => "Parameter",
            Demotion::Level => "Level",
            Demotion::TimeUnit => "TimeUnit",
            Demotion::Process => "Process",
            Demotion::Date => "Date",
            Demotion::Interval => "Interval",
            Demotion::LocalUse => "LocalUse",
            Demotion::EarthShape => "EarthShape",
            Demotion::GridFlags => "GridFlags",
            Demotion::RowList => "RowList",
            Demotion::GridNumber(_) => "GridNumber",
            Demotion::Coordinate(_) => "Coordinate",
            Demotion::Reference => "Reference",
            Demotion::SecondaryMissing(_) => "SecondaryMissing",
            Demotion::OutOfRange(_) => "OutOfRange",
            Demotion::TooLong(_) => "TooLong",
        }
    }

    /// The octet of the grid's number, which vertical coordinate or point it is, or how many octets there would be,
    /// which a note prints after the name.
    pub fn number(&self) -> Option<u64>
        ensures { result ≡ number_of self.now }
    {
        match *self {
            Demotion::GridNumber(number)
            | Demotion::Coordinate(number)
            | Demotion::SecondaryMissing(number)
            | Demotion::OutOfRange(number) => Some(u64::from(number)),
            Demotion::TooLong(length) => Some(length),
            _ => None,
        }
    }
}

impl fmt::Display for Demotion {
    ghost output = { λ loss. Some (demotion_text loss) };

    fn fmt<W: fmt::Write>(&self, f: &mut fmt::Formatter<W>) -> fmt::Result {
        match self.number() {
            Some(number) => write!(f, "{} {number}", self.name()),
            None => f.write_str(self.name()),
        }
    }
}
