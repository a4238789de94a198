//! The keys of a message of edition 1: the numbers of its Section 1 by their names.

ghost use Rattle.std.specs.Prelude.{◌≡◌, ◌+◌, ◌≤◌, Some};
ghost use Rattle.grib_keys.specs.Keys1.{place_of, name1_of, keys1, key1_named, can_set1};

use crate::table::Octets;
use std::fmt;

/// A number of Section 1, the product definition section (WMO-No. 306, Volume I.2, FM 92 GRIB edition 1).
#[derive(Clone, Copy, Debug, PartialEq, Eq)]
pub enum Key1 {
    /// The version of the parameter table: octet 4.
    Version,
    /// The originating centre: octet 5.
    Centre,
    /// The generating process: octet 6.
    Process,
    /// The number of the grid in the centre's catalogue: octet 7.
    GridNumber,
    /// Bit 1: Section 2 is there; bit 2: Section 3 is there: octet 8.
    Flags,
    /// The parameter: octet 9.
    Parameter,
    /// The type of level: octet 10.
    LevelType,
    /// The level, or the top and the bottom of a layer: octets 11 and 12.
    Level,
    /// The year of the century of the reference time: octet 13.
    YearOfCentury,
    /// Octet 14.
    Month,
    /// Octet 15.
    Day,
    /// Octet 16.
    Hour,
    /// Octet 17.
    Minute,
    /// The unit of P1 and P2: octet 18.
    Unit,
    /// The first period of time: octet 19.
    P1,
    /// The second period of time: octet 20.
    P2,
    /// What P1 and P2 mean: octet 21.
    TimeRange,
    /// The number of fields in an average: octets 22 and 23.
    AverageCount,
    /// The number of fields missing from an average: octet 24.
    AverageMissing,
    /// The century of the reference time: octet 25.
    Century,
    /// The sub-centre: octet 26.
    SubCentre,
    /// The decimal scale factor D, sign and magnitude: octets 27 and 28.
    DecimalScale,
}

/// All numbers of Section 1, in the order of their octets.
const KEYS: [Key1; 22] = [
    Key1::Version,
    Key1::Centre,
    Key1::Process,
    Key1::GridNumber,
    Key1::Flags,
    Key1::Parameter,
    Key1::LevelType,
    Key1::Level,
    Key1::YearOfCentury,
    Key1::Month,
    Key1::Day,
    Key1::Hour,
    Key1::Minute,
    Key1::Unit,
    Key1::P1,
    Key1::P2,
    Key1::TimeRange,
    Key1::AverageCount,
    Key1::AverageMissing,
    Key1::Century,
    Key1::SubCentre,
    Key1::DecimalScale,
];

impl Key1 {
    /// The key of this name, `None` where no key has it. Small and capital letters differ.
    pub fn of(name: &str) -> Option<Key1>
        ensures { result ≡ key1_named name.now }
    {
        KEYS.iter().copied().find(|key| key.name() == name)
    }

    /// All keys, in the order of their octets.
    pub fn all() -> &'static [Key1]
        ensures { result.now ≡ keys1 }
    {
        &KEYS
    }

    /// Whether a message may get another number at the key. It may not where others are read by the number: the
    /// flags and the decimal scale factor.
    pub fn can_set(&self) -> bool
        ensures { result ≡ can_set1 self.now }
    {
        !matches!(self, Key1::Flags | Key1::DecimalScale)
    }

    /// The octets at which the number of the key stands.
    pub fn place(&self) -> Octets
        ensures first { result.first ≡ (place_of self.now).first }
        ensures last { result.last ≡ (place_of self.now).last }
        ensures counted { 1 ≤ result.first }
        ensures some { result.first ≤ result.last }
        ensures word { result.last ≤ result.first + 1 }
        ensures within { result.last ≤ 28 }
    {
        let (first, last) = match self {
            Key1::Version => (4, 4),
            Key1::Centre => (5, 5),
            Key1::Process => (6, 6),
            Key1::GridNumber => (7, 7),
            Key1::Flags => (8, 8),
            Key1::Parameter => (9, 9),
            Key1::LevelType => (10, 10),
            Key1::Level => (11, 12),
            Key1::YearOfCentury => (13, 13),
            Key1::Month => (14, 14),
            Key1::Day => (15, 15),
            Key1::Hour => (16, 16),
            Key1::Minute => (17, 17),
            Key1::Unit => (18, 18),
            Key1::P1 => (19, 19),
            Key1::P2 => (20, 20),
            Key1::TimeRange => (21, 21),
            Key1::AverageCount => (22, 23),
            Key1::AverageMissing => (24, 24),
            Key1::Century => (25, 25),
            Key1::SubCentre => (26, 26),
            Key1::DecimalScale => (27, 28),
        };
        Octets { first, last }
    }

    /// The name of the key, as a command line has it and as it is printed.
    pub fn name(&self) -> &'static str
        ensures { result.now ≡ name1_of self.now }
    {
        match self {
            Key1::Version => "Version",
            Key1::Centre => "Centre",
            Key1::Process => "Process",
            Key1::GridNumber => "GridNumber",
            Key1::Flags => "Flags",
            Key1::Parameter => "Parameter",
            Key1::LevelType => "LevelType",
            Key1::Level => "Level",
            Key1::YearOfCentury => "YearOfCentury",
            Key1::Month => "Month",
            Key1::Day => "Day",
            Key1::Hour => "Hour",
            Key1::Minute => "Minute",
            Key1::Unit => "Unit",
            Key1::P1 => "P1",
            Key1::P2 => "P2",
            Key1::TimeRange => "TimeRange",
            Key1::AverageCount => "AverageCount",
            Key1::AverageMissing => "AverageMissing",
            Key1::Century => "Century",
            Key1::SubCentre => "SubCentre",
            Key1::DecimalScale => "DecimalScale",
        }
    }
}

impl fmt::Display for Key1 {
    ghost output = { λ key. Some (name1_of key) };

    fn fmt<W: fmt::Write>(&self, f: &mut fmt::Formatter<W>) -> fmt::Result {
        f.write_str(self.name())
    }
}
