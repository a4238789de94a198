//! Section 5, the data representation section: what all packings share.

ghost use Rattle.std.specs.Prelude.{◌≡◌, ◌==◌, ◌≤◌, length, not, true, false, Some, None, MatchResult};
ghost use Rattle.grib_bits.specs.Binary32.{ieee_exponent};
ghost use Rattle.grib_bits.specs.Octets.{StatesItself};
ghost use Rattle.grib_base.specs.Rules as acceptance;
ghost use Rattle.grib_base.specs.Rules.{first_fault_at};
ghost use Rattle.grib_packing.specs.Entries.{packing_rules, is_packing, packing_of};
ghost use Rattle.grib_packing.specs.Packing.{template_reason};
ghost use Rattle.grib_packing.specs.Representation.{Spelled};

use crate::{Column, Point};
use byteorder::{BigEndian, ByteOrder};
use grib_base::{Fault, List, Reason, Section};

/// What Section 5 says in each template whose values are read (WMO-No. 306, Volume I.2, FM 92 GRIB edition 2, data
/// representation templates 5.0, 5.2, 5.3 and 5.42).
#[derive(Clone, Copy, Debug, PartialEq, Eq)]
pub struct Simple {
    /// The number of values that Section 7 gives: octets 6-9.
    pub values: u32,
    /// The data representation template (code table 5.0): octets 10-11.
    pub template: u16,
    /// The word of the reference value R: octets 12-15.
    pub reference: u32,
    /// The binary scale factor E, sign and magnitude: octets 16-17.
    pub e: u16,
    /// The decimal scale factor D, sign and magnitude: octets 18-19.
    pub d: u16,
    /// The bits of each packed number, or of each group reference: octet 20.
    pub bits: u8,
    /// The type of the original values (code table 5.1): octet 21.
    pub kind: u8,
}

impl Simple {
    /// A column of these points, with the R, E and D that give them values.
    pub fn column(&self, points: Vec<Point>) -> Column
        ensures { result ≡ record { reference = self.now.reference; e = self.now.e; d = self.now.d; points = points.items } }
    {
        Column {
            reference: self.reference,
            e: self.e,
            d: self.d,
            points: List::of(points),
        }
    }
}

/// Reads of Section 5 what all templates share, where the grid has this many points. A refusal is that of
/// the first rule of the profile that fails: the section is too short, its template is not one of those
/// whose values are read, there are more values than points, the reference value is not finite, or the numbers are
/// too wide.
pub fn read_simple(section: &Section<'_>, points: u32) -> Result<Simple, Fault>
    ensures { MatchResult result
        (λ value. (first_fault_at section.now.start (packing_rules section.now.octets.now points) ≡ None)
        × Spelled value section.now.octets.now)
        (λ fault. first_fault_at section.now.start (packing_rules section.now.octets.now points)
        ≡ Some fault) }
{
    let octets = section.octets;
    let length = octets.len() as u64;
    let start = section.start;
    if length < 11 {
        return Err(Fault::at(start, Reason::SectionLength, length));
    }
    let template = BigEndian::read_u16(&octets[9..]);
    let limits = match limits_of(template) {
        Ok(limits) => limits,
        Err(reason) => return Err(Fault::at(start + 9, reason, u64::from(template))),
    };
    if length < limits.least_length {
        return Err(Fault::at(start, Reason::SectionLength, length));
    }
    let simple = numbers_of(octets);
    if simple.values > points {
        return Err(Fault::at(start + 5, Reason::ValueCount, u64::from(simple.values)));
    }
    if !is_finite(simple.reference) {
        return Err(Fault::at(
            start + 11,
            Reason::ReferenceNotFinite,
            u64::from(simple.reference),
        ));
    }
    if simple.bits > limits.most_bits {
        return Err(Fault::at(start + 19, Reason::BitWidth, u64::from(simple.bits)));
    }
    Ok(simple)
}

/// The numbers that stand in the first 21 octets of a Section 5.
pub fn numbers_of(octets: &[u8]) -> Simple
    requires { 21 ≤ length octets.now }
    ensures { Spelled result octets.now }
{
    Simple {
        values: BigEndian::read_u32(&octets[5..]),
        template: BigEndian::read_u16(&octets[9..]),
        reference: BigEndian::read_u32(&octets[11..]),
        e: BigEndian::read_u16(&octets[15..]),
        d: BigEndian::read_u16(&octets[17..]),
        bits: octets[19],
        kind: octets[20],
    }
}

/// What a template whose values are read asks of a Section 5.
#[derive(Clone, Copy)]
pub(crate) struct Limits {
    /// The least length of the section, in octets.
    least_length: u64,
    /// The most bits of each packed number, or of each group reference.
    most_bits: u8,
    /// Whether the stated profile has it.
    pub(crate) is_stated: bool,
}

/// The limits of a template whose values are read, or why a template is refused.
pub(crate) fn limits_of(template: u16) -> Result<Limits, Reason>
    ensures { MatchResult result
        (λ limits. (is_packing template ≡ true) × (limits.least_length ≡ (packing_of template).least)
        × (limits.most_bits ≡ (packing_of template).most) × (limits.is_stated ≡ (packing_of template).stated))
        (λ reason. (is_packing template ≡ false) × (reason ≡ template_reason template)) }
{
    let (least_length, most_bits, is_stated) = match template {
        0 => (21, 48, true),
        2 => (47, 32, true),
        3 => (49, 32, true),
        42 => (25, 32, false),
        _ => return Err(reason_of(template)),
    };
    Ok(Limits {
        least_length,
        most_bits,
        is_stated,
    })
}

/// Why a template that a profile does not have is refused.
pub(crate) fn reason_of(template: u16) -> Reason
    ensures { result ≡ template_reason template }
{
    match template {
        40 => Reason::Jpeg2000,
        41 => Reason::PngPacked,
        42 => Reason::Ccsds,
        _ => Reason::PackingTemplate,
    }
}

/// Whether a binary32 word is neither infinite nor NaN.
fn is_finite(word: u32) -> bool
    ensures { result ≡ not (ieee_exponent word == 255) }
{
    word >> 23 & 255 != 255
}
