//! Section 5 of complex packing.

ghost use Rattle.std.specs.Prelude.{◌≡◌, ◌⊎◌, ◌+◌, ◌*◌, ◌^◌, ◌<◌, ◌≤◌, ◌==◌, cond, slice_index, length, Some, None, MatchResult};
ghost use Rattle.grib_bits.specs.Octets.{StatesItself};
ghost use Rattle.grib_base.specs.Rules.{first_fault, first_fault_at};
ghost use Rattle.grib_packing.specs.Complex.{complex_rules, layout_of};
ghost use Rattle.grib_packing.specs.Entries.{packing_fault, packing_rules};
ghost use Rattle.grib_packing.specs.Packing.{packing_template};
ghost use Rattle.grib_packing.specs.Representation as shared;
ghost use Rattle.grib_complex_reading.specs.Descriptors.{IsAccepted};
ghost use Rattle.grib_complex_reading.specs.Representation.{Spelled};

use byteorder::{BigEndian, ByteOrder};
use grib_base::{Fault, Reason, Section};
use grib_packing::{Layout, Simple, read_simple};

/// What Section 5 says of a field in complex packing (WMO-No. 306, Volume I.2, FM 92 GRIB edition 2, data
/// representation templates 5.2 and 5.3).
#[derive(Clone, Copy, Debug, PartialEq, Eq)]
pub struct Complex {
    /// What all templates share.
    pub simple: Simple,
    /// The group splitting method (code table 5.4): octet 22.
    pub split: u8,
    /// The primary missing value substitute: octets 24-27.
    pub primary: u32,
    /// The secondary missing value substitute: octets 28-31.
    pub secondary: u32,
    /// How the groups are laid out.
    pub layout: Layout,
    /// The order of spatial differencing (code table 5.6): octet 48, and 0 without differencing.
    pub order: u8,
    /// The octets of each extra descriptor: octet 49, and 0 without differencing.
    pub extra: u8,
}

impl Complex {
    /// The octets of the extra descriptors, which stand after octet 5 of Section 7.
    pub fn skip(&self) -> u32
        requires { self.now.order ≤ 2 }
        ensures { result ≡ (self.now.order + 1) * self.now.extra }
    {
        u32::from(self.order + 1) * u32::from(self.extra)
    }
}

/// Reads what Section 5 says of complex packing, where [`read_simple`] has accepted it with template 2 or
/// 3 for a grid of this many points. A refusal is that of the first rule of the profile that fails: the
/// missing value management, the number of groups, the widths and lengths of groups, the order of
/// differencing or the octets of its descriptors are not of the profile.
pub fn read_complex(section: &Section<'_>, points: u32) -> Result<Complex, Fault>
    requires accepted { first_fault (packing_rules section.now.octets.now points) ≡ None }
    requires template { (packing_template section.now.octets.now ≡ 2) ⊎ (packing_template section.now.octets.now ≡ 3) }
    ensures { MatchResult result
        (λ value. (first_fault_at section.now.start (complex_rules section.now.octets.now) ≡ None)
        × Spelled value section.now.octets.now)
        (λ fault. first_fault_at section.now.start (complex_rules section.now.octets.now)
        ≡ Some fault) }
{
    let simple = read_simple(section, points)?;
    complex_of(simple, section)
}

/// What a Section 5 says of complex packing that is accepted.
pub fn accepted_complex(section: &Section<'_>, points: u32) -> Complex
    requires accepted { packing_fault section.now.octets.now points ≡ None }
    requires template { (packing_template section.now.octets.now ≡ 2) ⊎ (packing_template section.now.octets.now ≡ 3) }
    ensures accepted { IsAccepted result }
    ensures spelled { Spelled result section.now.octets.now }
{
    let Ok(complex) = read_complex(section, points) else {
        unreachable!();
    };
    complex
}

/// Reads what Section 5 says of complex packing beside what all templates share, by the rules of the profile
/// for templates 5.2 and 5.3.
pub fn complex_of(simple: Simple, section: &Section<'_>) -> Result<Complex, Fault>
    requires simple { shared.Spelled simple section.now.octets.now }
    requires length { 47 ≤ length section.now.octets.now }
    requires spatial { packing_template section.now.octets.now ≡ 3 → 49 ≤ length section.now.octets.now }
    ensures { MatchResult result
        (λ value. (first_fault_at section.now.start (complex_rules section.now.octets.now) ≡ None)
        × Spelled value section.now.octets.now)
        (λ fault. first_fault_at section.now.start (complex_rules section.now.octets.now)
        ≡ Some fault) }
{
    let complex = numbers(simple, section.octets);
    let start = section.start;
    let layout = complex.layout;
    if layout.management > 2 {
        return Err(Fault::at(
            start + 22,
            Reason::MissingManagement,
            u64::from(layout.management),
        ));
    }
    if layout.groups > simple.values {
        return Err(Fault::at(start + 31, Reason::GroupCount, u64::from(layout.groups)));
    }
    if layout.width_reference > 32 {
        return Err(Fault::at(
            start + 35,
            Reason::GroupWidth,
            u64::from(layout.width_reference),
        ));
    }
    if layout.width_bits > 32 {
        return Err(Fault::at(start + 36, Reason::GroupWidth, u64::from(layout.width_bits)));
    }
    if layout.length_bits > 32 {
        return Err(Fault::at(
            start + 46,
            Reason::GroupShape,
            u64::from(layout.length_bits),
        ));
    }
    if simple.template == 3 && complex.order != 1 && complex.order != 2 {
        return Err(Fault::at(
            start + 47,
            Reason::DifferenceOrder,
            u64::from(complex.order),
        ));
    }
    if simple.template == 3 && complex.extra > 4 {
        return Err(Fault::at(start + 48, Reason::ExtraOctets, u64::from(complex.extra)));
    }
    Ok(complex)
}

/// The numbers that stand in Section 5.
fn numbers(simple: Simple, octets: &[u8]) -> Complex
    requires simple { shared.Spelled simple octets.now }
    requires length { 47 ≤ length octets.now }
    requires spatial { packing_template octets.now ≡ 3 → 49 ≤ length octets.now }
    ensures { Spelled result octets.now }
{
    Complex {
        simple,
        split: octets[21],
        primary: BigEndian::read_u32(&octets[23..]),
        secondary: BigEndian::read_u32(&octets[27..]),
        layout: layout(octets),
        order: spatial_octet(simple.template, octets, 47),
        extra: spatial_octet(simple.template, octets, 48),
    }
}

/// An octet of template 5.3, and 0 in another one.
fn spatial_octet(template: u16, octets: &[u8], index: usize) -> u8
    requires { template ≡ 3 → index < length octets.now }
    ensures { result ≡ cond (template == 3) (slice_index octets.now index) 0 }
{
    if template == 3 { octets[index] } else { 0 }
}

/// How the groups are laid out, by Section 5.
fn layout(octets: &[u8]) -> Layout
    requires { 47 ≤ length octets.now }
    ensures { result ≡ layout_of octets.now }
{
    Layout {
        groups: BigEndian::read_u32(&octets[31..]),
        reference_bits: octets[19],
        width_reference: octets[35],
        width_bits: octets[36],
        length_reference: BigEndian::read_u32(&octets[37..]),
        length_increment: octets[41],
        last_length: BigEndian::read_u32(&octets[42..]),
        length_bits: octets[46],
        management: octets[22],
    }
}
