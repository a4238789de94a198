//! Why a message is refused, and where.

ghost use Rattle.std.specs.Prelude.{◌≡◌, Some};
ghost use Rattle.grib_base.specs.Reason.{number_of, name_of, fault_text};
ghost use Rattle.grib_base.specs.Rules.{refusal};
ghost use Rattle.grib_base.specs.declared.fault.ReadFault.TheVariants.{Refused, Memory};

use std::alloc::AllocError;
use std::fmt;
use thiserror::Error;

/// Why a message is refused. The profile of the format names for each reason where it comes.
#[derive(Clone, Copy, Debug, PartialEq, Eq)]
pub enum Reason {
    Truncated = 1,
    Edition,
    TotalLength,
    SectionLength,
    SectionOrder,
    GridSource,
    GridTemplate,
    PointCount,
    ListShape,
    ProductTemplate,
    PackingTemplate,
    Jpeg2000,
    PngPacked,
    Ccsds,
    ReferenceNotFinite,
    BitmapIndicator,
    NoEarlierBitmap,
    BitmapSize,
    ValueCount,
    MissingManagement,
    GroupCount,
    GroupWidth,
    GroupShape,
    DifferenceOrder,
    ExtraOctets,
    FirstValueSign,
    DataTooShort,
    ScaledRange,
    EndMark,
    LengthDisagrees,
    BitWidth,
    FieldCount,
    NoGridSection,
    GridType,
    SecondOrder,
    Harmonics,
    ExtraFlags,
    BlockCode,
}

impl Reason {
    /// The number of the reason, 1 to 38.
    pub fn number(&self) -> u8
        ensures { result ≡ number_of self.now }
    {
        *self as u8
    }

    /// The name of the reason.
    fn name(&self) -> &'static str
        ensures { result.now ≡ name_of self.now }
    {
        match self {
            Reason::Truncated => "Truncated",
            Reason::Edition => "Edition",
            Reason::TotalLength => "TotalLength",
            Reason::SectionLength => "SectionLength",
            Reason::SectionOrder => "SectionOrder",
            Reason::GridSource => "GridSource",
            Reason::GridTemplate => "GridTemplate",
            Reason::PointCount => "PointCount",
            Reason::ListShape => "ListShape",
            Reason::ProductTemplate => "ProductTemplate",
            Reason::PackingTemplate => "PackingTemplate",
            Reason::Jpeg2000 => "Jpeg2000",
            Reason::PngPacked => "PngPacked",
            Reason::Ccsds => "Ccsds",
            Reason::ReferenceNotFinite => "ReferenceNotFinite",
            Reason::BitmapIndicator => "BitmapIndicator",
            Reason::NoEarlierBitmap => "NoEarlierBitmap",
            Reason::BitmapSize => "BitmapSize",
            Reason::ValueCount => "ValueCount",
            Reason::MissingManagement => "MissingManagement",
            Reason::GroupCount => "GroupCount",
            Reason::GroupWidth => "GroupWidth",
            Reason::GroupShape => "GroupShape",
            Reason::DifferenceOrder => "DifferenceOrder",
            Reason::ExtraOctets => "ExtraOctets",
            Reason::FirstValueSign => "FirstValueSign",
            Reason::DataTooShort => "DataTooShort",
            Reason::ScaledRange => "ScaledRange",
            Reason::EndMark => "EndMark",
            Reason::LengthDisagrees => "LengthDisagrees",
            Reason::BitWidth => "BitWidth",
            Reason::FieldCount => "FieldCount",
            Reason::NoGridSection => "NoGridSection",
            Reason::GridType => "GridType",
            Reason::SecondOrder => "SecondOrder",
            Reason::Harmonics => "Harmonics",
            Reason::ExtraFlags => "ExtraFlags",
            Reason::BlockCode => "BlockCode",
        }
    }
}

impl fmt::Display for Reason {
    ghost output = { λ reason. Some (name_of reason) };

    fn fmt<W: fmt::Write>(&self, f: &mut fmt::Formatter<W>) -> fmt::Result {
        f.write_str(self.name())
    }
}

/// A refusal of a message: the octet that decides it, counted from 1 at the `G` of `GRIB`, the
/// reason, and the number that the reason speaks of.
#[derive(Clone, Copy, Debug, PartialEq, Eq)]
pub struct Fault {
    pub octet: u64,
    pub reason: Reason,
    pub detail: u64,
}

impl Fault {
    /// The refusal at this octet of a message, for this reason, with this detail.
    pub fn at(octet: u64, reason: Reason, detail: u64) -> Fault
        ensures { result ≡ refusal octet reason detail }
    {
        Fault {
            octet,
            reason,
            detail,
        }
    }
}

impl fmt::Display for Fault {
    ghost output = { λ fault. Some (fault_text fault) };

    fn fmt<W: fmt::Write>(&self, f: &mut fmt::Formatter<W>) -> fmt::Result {
        let octet = self.octet;
        let reason = self.reason;
        let detail = self.detail;
        write!(f, "octet {octet} {reason} {detail}")
    }
}

impl std::error::Error for Fault {}

/// The refusal of a message of an input. Messages count from 1.
#[derive(Clone, Copy, Debug, PartialEq, Eq)]
pub struct Refusal {
    pub message: u64,
    pub fault: Fault,
}

/// Why something was not read: it is refused, or there is no memory for what was read.
#[derive(Clone, Copy, Debug, PartialEq, Eq, Error)]
pub enum ReadFault {
    /// A rule of the profile fails.
    #[error("{0}")]
    Refused(Fault),
    /// There is no memory.
    #[error("out of memory")]
    Memory,
}

impl From<Fault> for ReadFault {
    ghost from_gives = { λ fault read. read ≡ Refused fault };

    fn from(fault: Fault) -> ReadFault {
        ReadFault::Refused(fault)
    }
}

impl From<AllocError> for ReadFault {
    ghost from_gives = { λ _ read. read ≡ Memory };

    fn from(_: AllocError) -> ReadFault {
        ReadFault::Memory
    }
}
