//! Section 5 of CCSDS packing.

ghost use Rattle.std.specs.Prelude.{◌≡◌, ◌≤◌, length, Some, None, MatchResult};
ghost use Rattle.grib_base.specs.Rules.{first_fault_at};
ghost use Rattle.grib_coding.specs.Coding as coding_of_blocks;
ghost use Rattle.grib_packing.specs.Coded as acceptance;
ghost use Rattle.grib_packing.specs.Coded.{coded_rules, coding_of};
ghost use Rattle.grib_packing.specs.Representation as shared;
ghost use Rattle.grib_block_feeding.specs.Representation.{Spelled};

use byteorder::{BigEndian, ByteOrder};
use grib_base::{Fault, Reason, Section};
use grib_coding::Coding;
use grib_packing::Simple;

/// What Section 5 says of a field in CCSDS packing (WMO-No. 306, Volume I.2, FM 92 GRIB edition 2, data representation
/// template 5.42).
#[derive(Clone, Copy, Debug, PartialEq, Eq)]
pub struct Coded {
    /// What all templates share.
    pub simple: Simple,
    /// How the blocks are coded: octets 20 and 22 to 25.
    pub coding: Coding,
}

/// Reads what Section 5 says of CCSDS packing beside what all templates share.
///
/// # Errors
///
/// The refusal of the first rule of the profile for template 5.42 that fails, where numbers have bits: the flags, the
/// values of a block or the blocks of an interval are not of the profile.
pub fn coded_of(simple: Simple, section: &Section<'_>) -> Result<Coded, Fault>
    requires simple { shared.Spelled simple section.now.octets.now }
    requires length { 25 ≤ length section.now.octets.now }
    ensures { MatchResult result
        (λ value. (first_fault_at section.now.start (coded_rules section.now.octets.now) ≡ None)
        × Spelled value section.now.octets.now)
        (λ fault. first_fault_at section.now.start (coded_rules section.now.octets.now) ≡ Some fault) }
{
    let coding = coding(simple, section.octets);
    let coded = Coded { simple, coding };
    if simple.bits == 0 {
        return Ok(coded);
    }
    if are_flags_refused(coding) {
        return Err(section.fault_at(22, Reason::Ccsds, u64::from(coding.flags)));
    }
    if !is_block(coding.block) {
        return Err(section.fault_at(23, Reason::Ccsds, u64::from(coding.block)));
    }
    if coding.interval == 0 || coding.interval > 4096 {
        return Err(section.fault_at(24, Reason::Ccsds, u64::from(coding.interval)));
    }
    Ok(coded)
}

/// How the blocks are coded, by Section 5.
fn coding(simple: Simple, octets: &[u8]) -> Coding
    requires simple { shared.Spelled simple octets.now }
    requires length { 25 ≤ length octets.now }
    ensures { result ≡ coding_of octets.now }
{
    Coding {
        bits: simple.bits,
        flags: octets[21],
        block: octets[22],
        interval: BigEndian::read_u16(&octets[23..]),
    }
}

/// Whether the flags are refused: those of numbers with a sign (1), of blocks of any size (64) and one without a
/// meaning (128), and that of short identifiers (16) for numbers of more than 4 bits.
fn are_flags_refused(coding: Coding) -> bool
    ensures { result ≡ acceptance.are_flags_refused coding }
{
    let flags = coding.flags;
    let is_short = has_flag(flags, 16) && coding.bits > 4;
    has_flag(flags, 1) || has_flag(flags, 64) || has_flag(flags, 128) || is_short
}

/// Whether flags have this one.
fn has_flag(flags: u8, flag: u8) -> bool
    requires { 1 ≤ flag }
    ensures { result ≡ coding_of_blocks.has_flag flags flag }
{
    flags / flag % 2 == 1
}

/// Whether a block may have this many values.
fn is_block(values: u8) -> bool
    ensures { result ≡ acceptance.is_block values }
{
    matches!(values, 8 | 16 | 32 | 64)
}
