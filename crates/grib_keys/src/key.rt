//! The keys of a field: their names, and which of them can be set.

ghost use Rattle.std.specs.Prelude.{◌≡◌, Some};
ghost use Rattle.grib_keys.specs.declared.table.Place.TheVariants.{At, Stated, FirstPoint, Instant, Ensemble, Interval, FirstRange};
ghost use Rattle.grib_keys.specs.Keys.{row_of, name_of, keys, can_set, key_named};

use crate::table::{Kind, Octets, Place, Row};
use std::fmt;

/// A number in the sections of a message of edition 2 that has a name on the command line.
#[derive(Clone, Copy, Debug, PartialEq, Eq)]
pub enum Key {
    Discipline,
    Centre,
    SubCentre,
    MasterTables,
    LocalTables,
    Significance,
    Year,
    Month,
    Day,
    Hour,
    Minute,
    Second,
    Status,
    DataType,
    EarthShape,
    Points,
    GridTemplate,
    Ni,
    Nj,
    Scanning,
    La1,
    Lo1,
    ProductTemplate,
    Category,
    Number,
    Process,
    Generator,
    TimeUnit,
    ForecastTime,
    Surface1,
    Surface1Scale,
    Surface1Value,
    Surface2,
    Surface2Scale,
    Surface2Value,
    EnsembleType,
    EnsembleNumber,
    EnsembleMembers,
    EndYear,
    EndMonth,
    EndDay,
    EndHour,
    EndMinute,
    EndSecond,
    RangeProcess,
    RangeIncrementType,
    RangeUnit,
    RangeLength,
    Packing,
    Bits,
}

/// All keys, in the order of their places.
const KEYS: [Key; 50] = [
    Key::Discipline,
    Key::Centre,
    Key::SubCentre,
    Key::MasterTables,
    Key::LocalTables,
    Key::Significance,
    Key::Year,
    Key::Month,
    Key::Day,
    Key::Hour,
    Key::Minute,
    Key::Second,
    Key::Status,
    Key::DataType,
    Key::EarthShape,
    Key::Points,
    Key::GridTemplate,
    Key::Ni,
    Key::Nj,
    Key::Scanning,
    Key::La1,
    Key::Lo1,
    Key::ProductTemplate,
    Key::Category,
    Key::Number,
    Key::Process,
    Key::Generator,
    Key::TimeUnit,
    Key::ForecastTime,
    Key::Surface1,
    Key::Surface1Scale,
    Key::Surface1Value,
    Key::Surface2,
    Key::Surface2Scale,
    Key::Surface2Value,
    Key::EnsembleType,
    Key::EnsembleNumber,
    Key::EnsembleMembers,
    Key::EndYear,
    Key::EndMonth,
    Key::EndDay,
    Key::EndHour,
    Key::EndMinute,
    Key::EndSecond,
    Key::RangeProcess,
    Key::RangeIncrementType,
    Key::RangeUnit,
    Key::RangeLength,
    Key::Packing,
    Key::Bits,
];

impl Key {
    /// The key of this name, `None` where no key has it. Small and capital letters differ.
    pub fn of(name: &str) -> Option<Key>
        ensures { result ≡ key_named name.now }
    {
        KEYS.iter().copied().find(|key| key.name() == name)
    }

    /// The row of the key in the table of keys.
    pub fn row(&self) -> Row
        ensures name { result.name.now ≡ (row_of self.now).name }
        ensures section { result.section ≡ (row_of self.now).section }
        ensures place { result.place ≡ (row_of self.now).place }
        ensures kind { result.kind ≡ (row_of self.now).kind }
    {
        match self {
            Key::Discipline => row("discipline", 0, at(7, 7), UNSIGNED),
            Key::Centre => row("centre", 1, at(6, 7), UNSIGNED),
            Key::SubCentre => row("subCentre", 1, at(8, 9), UNSIGNED),
            Key::MasterTables => row("masterTables", 1, at(10, 10), UNSIGNED),
            Key::LocalTables => row("localTables", 1, at(11, 11), UNSIGNED),
            Key::Significance => row("significance", 1, at(12, 12), UNSIGNED),
            Key::Year => row("year", 1, at(13, 14), UNSIGNED),
            Key::Month => row("month", 1, at(15, 15), UNSIGNED),
            Key::Day => row("day", 1, at(16, 16), UNSIGNED),
            Key::Hour => row("hour", 1, at(17, 17), UNSIGNED),
            Key::Minute => row("minute", 1, at(18, 18), UNSIGNED),
            Key::Second => row("second", 1, at(19, 19), UNSIGNED),
            Key::Status => row("status", 1, at(20, 20), UNSIGNED),
            Key::DataType => row("dataType", 1, at(21, 21), UNSIGNED),
            Key::EarthShape => row("earthShape", 3, stated(15, 15), UNSIGNED),
            Key::Points => row("points", 3, at(7, 10), FIXED),
            Key::GridTemplate => row("gridTemplate", 3, at(13, 14), FIXED),
            Key::Ni => row("ni", 3, stated(31, 34), FIXED_OR_MISSING),
            Key::Nj => row("nj", 3, stated(35, 38), FIXED_OR_MISSING),
            Key::Scanning => row("scanning", 3, Place::ScanningMode, UNSIGNED),
            Key::La1 => row("la1", 3, first_point(47, 39), SIGNED),
            Key::Lo1 => row("lo1", 3, first_point(51, 43), UNSIGNED),
            Key::ProductTemplate => row("productTemplate", 4, at(8, 9), FIXED),
            Key::Category => row("category", 4, at(10, 10), UNSIGNED),
            Key::Number => row("number", 4, at(11, 11), UNSIGNED),
            Key::Process => row("process", 4, of_instant(12, 12), UNSIGNED),
            Key::Generator => row("generator", 4, of_instant(14, 14), UNSIGNED),
            Key::TimeUnit => row("timeUnit", 4, of_instant(18, 18), UNSIGNED),
            Key::ForecastTime => row("forecastTime", 4, of_instant(19, 22), SIGNED),
            Key::Surface1 => row("surface1", 4, of_instant(23, 23), UNSIGNED_OR_MISSING),
            Key::Surface1Scale => row("surface1Scale", 4, of_instant(24, 24), SIGNED_OR_MISSING),
            Key::Surface1Value => row("surface1Value", 4, of_instant(25, 28), UNSIGNED_OR_MISSING),
            Key::Surface2 => row("surface2", 4, of_instant(29, 29), UNSIGNED_OR_MISSING),
            Key::Surface2Scale => row("surface2Scale", 4, of_instant(30, 30), SIGNED_OR_MISSING),
            Key::Surface2Value => row("surface2Value", 4, of_instant(31, 34), UNSIGNED_OR_MISSING),
            Key::EnsembleType => row("ensembleType", 4, of_ensemble(35, 35), UNSIGNED),
            Key::EnsembleNumber => row("ensembleNumber", 4, of_ensemble(36, 36), UNSIGNED),
            Key::EnsembleMembers => row("ensembleMembers", 4, of_ensemble(37, 37), UNSIGNED),
            Key::EndYear => row("endYear", 4, of_interval(35, 36), UNSIGNED),
            Key::EndMonth => row("endMonth", 4, of_interval(37, 37), UNSIGNED),
            Key::EndDay => row("endDay", 4, of_interval(38, 38), UNSIGNED),
            Key::EndHour => row("endHour", 4, of_interval(39, 39), UNSIGNED),
            Key::EndMinute => row("endMinute", 4, of_interval(40, 40), UNSIGNED),
            Key::EndSecond => row("endSecond", 4, of_interval(41, 41), UNSIGNED),
            Key::RangeProcess => row("rangeProcess", 4, of_range(47, 47), UNSIGNED),
            Key::RangeIncrementType => row("rangeIncrementType", 4, of_range(48, 48), UNSIGNED),
            Key::RangeUnit => row("rangeUnit", 4, of_range(49, 49), UNSIGNED),
            Key::RangeLength => row("rangeLength", 4, of_range(50, 53), UNSIGNED),
            Key::Packing => row("packing", 5, at(10, 11), FIXED),
            Key::Bits => row("bits", 5, stated(20, 20), FIXED),
        }
    }

    /// The name of the key, as a command line has it and as a note prints it.
    pub fn name(&self) -> &'static str
        ensures { result.now ≡ name_of self.now }
    {
        self.row().name
    }

    /// All keys, in the order of their places.
    pub fn all() -> &'static [Key]
        ensures { result.now ≡ keys }
    {
        &KEYS
    }

    /// Whether a message may get another number at the key. It may not where others are read or
    /// counted by the number: the numbers of templates, points and bits, and the sizes of the grid.
    pub fn can_set(&self) -> bool
        ensures { result ≡ can_set self.now }
    {
        self.row().kind.can_set
    }
}

/// A number without sign.
const UNSIGNED: Kind = Kind {
    is_signed: false,
    may_be_missing: false,
    can_set: true,
};

/// A number with a sign.
const SIGNED: Kind = Kind {
    is_signed: true,
    ..UNSIGNED
};

/// A number without sign that may be missing.
const UNSIGNED_OR_MISSING: Kind = Kind {
    may_be_missing: true,
    ..UNSIGNED
};

/// A number with a sign that may be missing.
const SIGNED_OR_MISSING: Kind = Kind {
    may_be_missing: true,
    ..SIGNED
};

/// A number by which others are read or counted.
const FIXED: Kind = Kind {
    can_set: false,
    ..UNSIGNED
};

/// A number by which others are read or counted, and that may be missing.
const FIXED_OR_MISSING: Kind = Kind {
    may_be_missing: true,
    ..FIXED
};

/// The row with this name, section, place and kind.
fn row(name: &'static str, section: u8, place: Place, kind: Kind) -> Row
    ensures name { result.name.now ≡ name.now }
    ensures section { result.section ≡ section }
    ensures place { result.place ≡ place }
    ensures kind { result.kind ≡ kind }
{
    Row {
        name,
        section,
        place,
        kind,
    }
}

/// The octets from `first` to `last`, in every template.
fn at(first: usize, last: usize) -> Place
    ensures { result ≡ At (record { first = first; last = last }) }
{
    Place::At(Octets { first, last })
}

/// The octets from `first` to `last`, in every stated template.
fn stated(first: usize, last: usize) -> Place
    ensures { result ≡ Stated (record { first = first; last = last }) }
{
    Place::Stated(Octets { first, last })
}

/// A number of template 4.0 beyond the parameter, at the octets from `first` to `last` of that template.
fn of_instant(first: u8, last: u8) -> Place
    ensures { result ≡ Instant first last }
{
    Place::Instant { first, last }
}

/// A number of an ensemble, at the octets from `first` to `last`.
fn of_ensemble(first: usize, last: usize) -> Place
    ensures { result ≡ Ensemble (record { first = first; last = last }) }
{
    Place::Ensemble(Octets { first, last })
}

/// A number of an interval, at the octets from `first` to `last` of template 4.8.
fn of_interval(first: u8, last: u8) -> Place
    ensures { result ≡ Interval first last }
{
    Place::Interval { first, last }
}

/// A number of the first time range, at the octets from `first` to `last` of template 4.8.
fn of_range(first: u8, last: u8) -> Place
    ensures { result ≡ FirstRange first last }
{
    Place::FirstRange { first, last }
}

/// An angle of the first grid point, by the octets at which it begins.
fn first_point(by_angles: u8, other: u8) -> Place
    ensures { result ≡ FirstPoint by_angles other }
{
    Place::FirstPoint { by_angles, other }
}

impl fmt::Display for Key {
    ghost output = { λ key. Some (name_of key) };

    fn fmt<W: fmt::Write>(&self, f: &mut fmt::Formatter<W>) -> fmt::Result {
        f.write_str(self.name())
    }
}
