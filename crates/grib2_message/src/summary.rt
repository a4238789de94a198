//! What describes a field: the numbers that its line of a list has.

ghost use Rattle.std.specs.Prelude.{◌≡◌, ◌≢◌, ◌+◌, ◌≤◌, ℕ, false, List, [], ◌∷◌, Some, None, length};
ghost use Rattle.grib_base.specs.Rules.{first_fault_at};
ghost use Rattle.grib_base.specs.declared.profile.Profile.{Profile};
ghost use Rattle.grib_bits.specs.Octets.{octets as number_at};
ghost use Rattle.grib_packing.specs.Entries.{is_opaque_packing};
ghost use Rattle.grib_packing.specs.Packing.{packing_template, value_count};
ghost use Rattle.grib2_grids.specs.Grid.{grid_points, grid_template};
ghost use Rattle.grib2_products.specs.Product.{product_template};
ghost use Rattle.grib2_sections.specs.Instant as instant;
ghost use Rattle.grib2_sections.specs.Frame.{Placed, placed_at};
ghost use Rattle.grib2_sections.specs.Identification.{identification_rules};
ghost use Rattle.grib2_message.specs.Acceptance.{section_fault_under};
ghost use Rattle.grib2_message.specs.Fields.{field_count, part_octets};
ghost use Rattle.grib2_message.specs.Message.{AnyFieldPasses};
ghost use Rattle.grib2_message.specs.Summary.{bits_of_packing, identification_of, instant_octets, summary_in_force, summary_of};

use crate::Message;
use grib_base::Section;
use grib_bits::{u8_at, u16_at, u32_at};
use grib_packing::is_opaque;
use grib2_sections::{Identification, instant_shift, read_identification};

/// What describes a field of a message of edition 2 (WMO-No. 306, Volume I.2, FM 92 GRIB edition 2): octet
/// 7 of Section 0, and numbers of the sections in force where the field ends, as they stand. It has no
/// octets of the message.
#[derive(Clone, Copy, Debug, PartialEq, Eq)]
pub struct FieldSummary {
    /// What Section 1 says.
    pub identification: Identification,
    /// The discipline (code table 0.0): octet 7 of Section 0.
    pub discipline: u8,
    /// The grid definition template (code table 3.1): octets 13-14 of Section 3.
    pub grid: u16,
    /// The number of grid points: octets 7-10 of Section 3.
    pub points: u32,
    /// The product definition template (code table 4.0): octets 8-9 of Section 4.
    pub product: u16,
    /// The parameter category (code table 4.1): octet 10 of Section 4.
    pub category: u8,
    /// The parameter number (code table 4.2): octet 11 of Section 4.
    pub number: u8,
    /// The unit of the forecast time (code table 4.4): octet 18 of Section 4. This number and the next four are
    /// those of product template 4.0; they stand two octets later in templates 4.40 to 4.43, and are 0 in a
    /// template that does not begin as 4.0.
    pub unit: u8,
    /// The forecast time, with its sign in the first bit: octets 19-22 of Section 4.
    pub time: u32,
    /// The type of the first fixed surface (code table 4.5), 255 where it is missing: octet 23 of Section 4.
    pub surface: u8,
    /// The scale factor of the first fixed surface, with its sign in the first bit, all ones where it is
    /// missing: octet 24 of Section 4.
    pub scale: u8,
    /// The scaled value of the first fixed surface, all ones where it is missing: octets 25-28 of Section 4.
    pub value: u32,
    /// The data representation template (code table 5.0): octets 10-11 of Section 5.
    pub packing: u16,
    /// The bits of each packed value or group reference: octet 20 of Section 5. 0 of an opaque packing.
    pub bits: u8,
    /// The number of values: octets 6-9 of Section 5.
    pub values: u32,
}

impl FieldSummary {
    /// What describes a field of this discipline before Section 1: no number is there but that.
    pub fn new(discipline: u8) -> FieldSummary
        ensures { result ≡ summary_in_force discipline [] }
    {
        let identification = Identification {
            centre: 0,
            sub_centre: 0,
            master: 0,
            local: 0,
            significance: 0,
            year: 0,
            month: 0,
            day: 0,
            hour: 0,
            minute: 0,
            second: 0,
            status: 0,
            data_type: 0,
        };
        FieldSummary {
            identification,
            discipline,
            grid: 0,
            points: 0,
            product: 0,
            category: 0,
            number: 0,
            unit: 0,
            time: 0,
            surface: 0,
            scale: 0,
            value: 0,
            packing: 0,
            bits: 0,
            values: 0,
        }
    }

    /// What describes a field after the next section, which no rule refused.
    pub fn with_section(self, section: &Section<'_>) -> FieldSummary
        requires accepted { (profile : Profile) × (before : List Placed) × (section_fault_under profile before
            (placed_at section.now.start section.now.octets.now) ≡ None) }
        ensures { (discipline : ℕ) (before : List Placed) → self ≡ summary_in_force discipline before
            → result ≡ summary_in_force discipline (placed_at section.now.start section.now.octets.now ∷ before) }
    {
        match section.number {
            1 => self.with_identification(section),
            3 => self.with_grid(section.octets),
            4 => self.with_product(section.octets),
            5 => self.with_representation(section.octets),
            _ => self,
        }
    }

    /// With the numbers of this Section 1.
    fn with_identification(self, section: &Section<'_>) -> FieldSummary
        requires accepted { first_fault_at section.now.start (identification_rules section.now.octets.now) ≡ None }
        ensures { result ≡ record self { identification = identification_of section.now.octets.now } }
    {
        match read_identification(section) {
            Ok(identification) => FieldSummary {
                identification,
                ..self
            },
            Err(_) => unreachable!(),
        }
    }

    /// With the numbers of this Section 3.
    fn with_grid(self, octets: &[u8]) -> FieldSummary
        requires { 14 ≤ length octets.now }
        ensures { result ≡ record self { grid = grid_template octets.now; points = grid_points octets.now } }
    {
        FieldSummary {
            grid: u16_at(octets, 13),
            points: u32_at(octets, 7),
            ..self
        }
    }

    /// With the numbers of this Section 4.
    fn with_product(self, octets: &[u8]) -> FieldSummary
        requires least { 11 ≤ length octets.now }
        requires instant { (shift : ℕ) → instant.instant_shift (product_template octets.now) ≡ Some shift → 34 + shift ≤ length octets.now }
        ensures { result ≡ record self {
          product = product_template octets.now;
          category = number_at octets.now 10 10;
          number = number_at octets.now 11 11;
          unit = instant_octets octets.now 18 18;
          time = instant_octets octets.now 19 22;
          surface = instant_octets octets.now 23 23;
          scale = instant_octets octets.now 24 24;
          value = instant_octets octets.now 25 28;
        } }
    {
        let product = u16_at(octets, 8);
        let summary = FieldSummary {
            product,
            category: u8_at(octets, 10),
            number: u8_at(octets, 11),
            ..self
        };
        match instant_shift(product) {
            Some(shift) => summary.with_instant(octets, shift),
            None => summary.with_no_instant(),
        }
    }

    /// With the numbers of template 4.0, which begin later by `shift` octets.
    fn with_instant(self, octets: &[u8], shift: usize) -> FieldSummary
        requires { 34 + shift ≤ length octets.now }
        ensures { result ≡ record self {
          unit = number_at octets.now (18 + shift) (18 + shift);
          time = number_at octets.now (19 + shift) (22 + shift);
          surface = number_at octets.now (23 + shift) (23 + shift);
          scale = number_at octets.now (24 + shift) (24 + shift);
          value = number_at octets.now (25 + shift) (28 + shift);
        } }
    {
        FieldSummary {
            unit: u8_at(octets, 18 + shift),
            time: u32_at(octets, 19 + shift),
            surface: u8_at(octets, 23 + shift),
            scale: u8_at(octets, 24 + shift),
            value: u32_at(octets, 25 + shift),
            ..self
        }
    }

    /// Without the numbers of template 4.0.
    fn with_no_instant(self) -> FieldSummary
        ensures { result ≡ record self { unit = 0; time = 0; surface = 0; scale = 0; value = 0 } }
    {
        FieldSummary {
            unit: 0,
            time: 0,
            surface: 0,
            scale: 0,
            value: 0,
            ..self
        }
    }

    /// With the numbers of this Section 5.
    fn with_representation(self, octets: &[u8]) -> FieldSummary
        requires least { 11 ≤ length octets.now }
        requires known { is_opaque_packing octets.now ≡ false → 20 ≤ length octets.now }
        ensures { result ≡ record self { packing = packing_template octets.now; bits = bits_of_packing octets.now; values = value_count octets.now } }
    {
        let bits = if is_opaque(octets) {
            0
        } else {
            u8_at(octets, 20)
        };
        FieldSummary {
            packing: u16_at(octets, 10),
            bits,
            values: u32_at(octets, 6),
            ..self
        }
    }
}

/// What describes a field, counted from 1.
pub fn field_summary(message: &Message<'_>, field: u32) -> FieldSummary
    requires first { 1 ≤ field }
    requires last { field ≤ field_count message.now }
    ensures { result ≡ summary_of message.now field }
{
    FieldSummary::new(u8_at(message.octets(), 7))
        .with_identification(&part_in(message, field, 1))
        .with_grid(part_in(message, field, 3).octets)
        .with_product(part_in(message, field, 4).octets)
        .with_representation(part_in(message, field, 5).octets)
}

/// A section in force for a field that each field has.
fn part_in<'a>(message: &Message<'a>, field: u32, number: u8) -> Section<'a>
    requires first { 1 ≤ field }
    requires last { field ≤ field_count message.now }
    requires low { 1 ≤ number }
    requires high { number ≤ 7 }
    requires present { number ≢ 2 }
    ensures octets { result.octets.now ≡ part_octets message.now field number }
    ensures passes { AnyFieldPasses message.now field }
{
    match message.part(field, number) {
        Some(part) => part,
        None => unreachable!(),
    }
}
