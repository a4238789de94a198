//! Section 1, the identification section.

ghost use Rattle.std.specs.Prelude.{◌≡◌, ◌%◌, ◌≤◌, length, Some, None, MatchResult};
ghost use Rattle.grib_bits.specs.Octets.{StatesItself};
ghost use Rattle.grib_base.specs.Rules.{first_fault_at};
ghost use Rattle.grib_bits.specs.Encoding.{AddsOctets};
ghost use Rattle.grib2_sections.specs.Identification.{identification_rules, section_of_identification, Spelled};

use byteorder::{BigEndian, ByteOrder};
use grib_base::{Fault, Reason, Section};
use grib_bits::{BitWriter, write_u8, write_u16, write_u32};

/// What Section 1 says of a message (WMO-No. 306, Volume I.2, FM 92 GRIB edition 2, Section 1).
#[derive(Clone, Copy, Debug, PartialEq, Eq)]
pub struct Identification {
    /// The originating centre (common code table C-11): octets 6-7.
    pub centre: u16,
    /// The sub-centre: octets 8-9.
    pub sub_centre: u16,
    /// The version of the master tables (code table 1.0): octet 10.
    pub master: u8,
    /// The version of the local tables (code table 1.1): octet 11.
    pub local: u8,
    /// What the reference time means (code table 1.2): octet 12.
    pub significance: u8,
    /// The year, of four digits: octets 13-14.
    pub year: u16,
    pub month: u8,
    pub day: u8,
    pub hour: u8,
    pub minute: u8,
    pub second: u8,
    /// The production status (code table 1.3): octet 20.
    pub status: u8,
    /// The type of data (code table 1.4): octet 21.
    pub data_type: u8,
}

/// Reads Section 1. A refusal says that the section ends before octet 21.
pub fn read_identification(section: &Section<'_>) -> Result<Identification, Fault>
    ensures { MatchResult result
        (λ value. (first_fault_at section.now.start (identification_rules section.now.octets.now) ≡ None)
        × Spelled value section.now.octets.now)
        (λ fault. first_fault_at section.now.start (identification_rules section.now.octets.now) ≡ Some fault) }
{
    let octets = section.octets;
    if octets.len() < 21 {
        return Err(Fault {
            octet: section.start,
            reason: Reason::SectionLength,
            detail: octets.len() as u64,
        });
    }
    Ok(Identification {
        centre: BigEndian::read_u16(&octets[5..]),
        sub_centre: BigEndian::read_u16(&octets[7..]),
        master: octets[9],
        local: octets[10],
        significance: octets[11],
        year: BigEndian::read_u16(&octets[12..]),
        month: octets[14],
        day: octets[15],
        hour: octets[16],
        minute: octets[17],
        second: octets[18],
        status: octets[19],
        data_type: octets[20],
    })
}

/// Writes a whole Section 1 of 21 octets. Reading the octets gives the value again.
pub fn write_identification(value: &Identification, out: &mut BitWriter)
    requires whole { length out.old.bits % 8 ≡ 0 }
    requires room { 168 ≤ out.old.spare }
    ensures itself { StatesItself 1 (section_of_identification value.now) }
    ensures length { length (section_of_identification value.now) ≡ 21 }
    ensures spelled { Spelled value.now (section_of_identification value.now) }
    ensures octets { AddsOctets out.old out.new (section_of_identification value.now) }
    ensures whole { length out.new.bits % 8 ≡ 0 }
{
    write_u32(21, out);
    write_u8(1, out);
    write_u16(value.centre, out);
    write_u16(value.sub_centre, out);
    write_u8(value.master, out);
    write_u8(value.local, out);
    write_u8(value.significance, out);
    write_u16(value.year, out);
    write_u8(value.month, out);
    write_u8(value.day, out);
    write_u8(value.hour, out);
    write_u8(value.minute, out);
    write_u8(value.second, out);
    write_u8(value.status, out);
    write_u8(value.data_type, out);
}
