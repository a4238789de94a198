//! Messages whose values can be read, of either edition, and their fields side by side.

ghost use Rattle.std.specs.Prelude.{◌≡◌, ◌≤◌, ◌<◌, ◌^◌, nat_abs, IfOk, IfSome, MatchResult};
ghost use Rattle.grib_bits.specs.Binary32.{ieee_exponent};
ghost use Rattle.grib_dyadic.specs.Meaning.{SameMeaning};
ghost use Rattle.grib_dyadic.specs.Reference.{ieee, SameNumber};
ghost use Rattle.grib1_sections.specs.Column.{meaning1_of};
ghost use Rattle.grib2_message.specs.Fields.{field_count, meaning_of, part_octets};
ghost use Rattle.grib_command.specs.Judging.{fields_of};
ghost use Rattle.grib_dispatch.specs.Reading.{held_octets};
ghost use Rattle.grib_compare.specs.declared.comparison.Comparison.TheVariants.{Same};
ghost use Rattle.grib_compare.specs.Fields as definitions;
ghost use Rattle.grib_compare.specs.Seen.{readable_octets, readable_field, points_mean, IsClear, IsOpaque};

use crate::comparison::Comparison;
use crate::octets::first_octet;
use crate::points::FieldPoints;
use crate::words::compare_words;
use grib_dispatch::Held;
use grib_dyadic::Dyadic;
use grib1_sections::Message1;
use grib2_message::{OpaqueField, ReadableMessage};
use std::alloc::{AllocError, Global};

/// A message whose values can be read.
#[derive(Debug, Drop)]
pub(crate) enum Readable<'a> {
    /// Of edition 1.
    One(&'a Message1<'a>),
    /// Of edition 2.
    Two(ReadableMessage<'a>),
}

impl<'a> Readable<'a> {
    /// This message, if its values can be read.
    ///
    /// # Errors
    ///
    /// A field has an opaque packing: the first one.
    pub(crate) fn of(held: &'a Held<'a>) -> Result<Readable<'a>, OpaqueField>
        ensures { MatchResult result
            (λ readable. (readable_octets readable ≡ held_octets held.now) × IsClear (held_octets held.now))
            (IsOpaque (held_octets held.now)) }
    {
        match held {
            Held::One(message) => {
                message.octets();
                Ok(Readable::One(message))
            }
            Held::Two(message) => {
                message.octets();
                match ReadableMessage::of(message) {
                    Ok(readable) => Ok(Readable::Two(readable)),
                    Err(opaque) => Err(opaque),
                }
            }
        }
    }

    /// The octets, from `GRIB` to `7777`.
    pub(crate) fn octets(&self) -> &'a [u8]
        ensures { result.now ≡ readable_octets self.now }
    {
        match self {
            Readable::One(message) => message.octets(),
            Readable::Two(message) => message.octets(),
        }
    }

    /// The number of fields.
    pub(crate) fn fields(&self) -> u32
        ensures { result ≡ fields_of (readable_octets self.now) }
    {
        match self {
            Readable::One(message) => {
                message.octets();
                1
            }
            Readable::Two(message) => {
                message.octets();
                message.fields()
            }
        }
    }

    /// The points of a field, counted from 1.
    ///
    /// # Errors
    ///
    /// There is no memory.
    fn points(&self, alloc: Global, field: u32) -> Result<FieldPoints, AllocError>
        requires first { 1 ≤ field }
        requires last { field ≤ fields_of (readable_octets self.now) }
        ensures { IfOk result (λ points.
            SameMeaning (points_mean points) (definitions.meanings (readable_field self.now field))) }
    {
        match self {
            Readable::One(message) => {
                message.octets();
                first_points(alloc, message)
            }
            Readable::Two(message) => {
                message.octets();
                second_points(alloc, message, field)
            }
        }
    }

    /// The octets of the section with this number, 1 to 4, of a field, counted from 1. There are none where the section
    /// is absent, and of edition 1 none of its Sections 3 and 4, which are the bitmap and the values.
    fn section(&self, field: u32, number: u8) -> &'a [u8]
        requires first { 1 ≤ field }
        requires last { field ≤ fields_of (readable_octets self.now) }
        requires low { 1 ≤ number }
        requires high { number ≤ 4 }
        ensures { result.now ≡ definitions.section_of number (readable_field self.now field) }
    {
        match self {
            Readable::One(message) => {
                message.octets();
                first_section(message, number)
            }
            Readable::Two(message) => {
                message.octets();
                second_section(message, field, number)
            }
        }
    }

    /// What is said of a field of this message and a field of another one, with their Sections 1 to 4 or without.
    ///
    /// # Errors
    ///
    /// There is no memory.
    pub(crate) fn compare(
        &self,
        alloc: Global,
        field: u32,
        other: &Readable<'_>,
        other_field: u32,
        sections: bool,
    ) -> Result<Comparison, AllocError>
        requires first { 1 ≤ field }
        requires last { field ≤ fields_of (readable_octets self.now) }
        requires other_first { 1 ≤ other_field }
        requires other_last { other_field ≤ fields_of (readable_octets other.now) }
        ensures { IfOk result (λ comparison. comparison
            ≡ definitions.compared sections (readable_field self.now field) (readable_field other.now other_field)) }
    {
        match self.compare_points(alloc, field, other, other_field)? {
            Comparison::Same => {
                if sections {
                    Ok(self.compare_sections(field, other, other_field))
                } else {
                    Ok(Comparison::Same)
                }
            }
            different => Ok(different),
        }
    }

    /// What is said of them by their points. The points of both are held at a time, or their words.
    fn compare_points(
        &self,
        alloc: Global,
        field: u32,
        other: &Readable<'_>,
        other_field: u32,
    ) -> Result<Comparison, AllocError>
        requires first { 1 ≤ field }
        requires last { field ≤ fields_of (readable_octets self.now) }
        requires other_first { 1 ≤ other_field }
        requires other_last { other_field ≤ fields_of (readable_octets other.now) }
        ensures { IfOk result (λ comparison. comparison
            ≡ definitions.by_points (definitions.meanings (readable_field self.now field))
            (definitions.meanings (readable_field other.now other_field)) Same) }
    {
        if let Some(comparison) = self.compare_words(alloc, field, other, other_field)? {
            return Ok(comparison);
        }
        let here = self.points(alloc, field)?;
        let there = other.points(alloc, other_field)?;
        here.beside(alloc, &there)
    }

    /// What is said of them by the words of their points, where both messages are of edition 2 and these tell it.
    fn compare_words(
        &self,
        alloc: Global,
        field: u32,
        other: &Readable<'_>,
        other_field: u32,
    ) -> Result<Option<Comparison>, AllocError>
        requires first { 1 ≤ field }
        requires last { field ≤ fields_of (readable_octets self.now) }
        requires other_first { 1 ≤ other_field }
        requires other_last { other_field ≤ fields_of (readable_octets other.now) }
        ensures { IfOk result (λ found. IfSome found (λ comparison. comparison
            ≡ definitions.by_points (definitions.meanings (readable_field self.now field))
            (definitions.meanings (readable_field other.now other_field)) Same)) }
    {
        let Readable::Two(here) = self else {
            return Ok(None);
        };
        let Readable::Two(there) = other else {
            return Ok(None);
        };
        here.octets();
        there.octets();
        compare_words(alloc, here, field, there, other_field)
    }

    /// What is said of them by their Sections 1 to 4.
    fn compare_sections(&self, field: u32, other: &Readable<'_>, other_field: u32) -> Comparison
        requires first { 1 ≤ field }
        requires last { field ≤ fields_of (readable_octets self.now) }
        requires other_first { 1 ≤ other_field }
        requires other_last { other_field ≤ fields_of (readable_octets other.now) }
        ensures { result ≡ definitions.by_sections (readable_field self.now field) (readable_field other.now other_field) }
    {
        for index in 0u8..4 {
            let section = index + 1;
            let here = self.section(field, section);
            let there = other.section(other_field, section);
            if let Some(octet) = first_octet(here, there) {
                return Comparison::Section { section, octet };
            }
        }
        Comparison::Same
    }
}

/// The points of a message of edition 1.
fn first_points(alloc: Global, message: &Message1<'_>) -> Result<FieldPoints, AllocError>
    ensures { IfOk result (λ points. SameMeaning (points_mean points) (meaning1_of message.now)) }
{
    let column = message.column1(alloc)?;
    let reference = Dyadic::from_ibm(column.reference);
    Ok(FieldPoints::of(column, reference))
}

/// The points of a field, counted from 1, of a message of edition 2.
fn second_points(
    alloc: Global,
    message: &ReadableMessage<'_>,
    field: u32,
) -> Result<FieldPoints, AllocError>
    requires first { 1 ≤ field }
    requires last { field ≤ field_count message.now }
    ensures { IfOk result (λ points. SameMeaning (points_mean points) (meaning_of message.now field)) }
{
    let column = message.column(alloc, field)?;
    let reference = reference_of(column.reference);
    Ok(FieldPoints::of(column, reference))
}

/// The reference value of a binary32 word that is finite, as that of each message that passes is.
fn reference_of(word: u32) -> Dyadic
    requires finite { ieee_exponent word < 255 }
    ensures number { SameNumber result (ieee word) }
    ensures mantissa { nat_abs result.mantissa < 2 ^ 24 }
    ensures exponent { nat_abs result.exponent ≤ 2 ^ 15 }
{
    Dyadic::from_ieee(word).unwrap()
}

/// The octets of Section 1 or 2 of a message of edition 1, and none of another section.
fn first_section<'a>(message: &Message1<'a>, number: u8) -> &'a [u8]
    ensures { result.now ≡ definitions.section_1 message.now number }
{
    if number == 0 || number > 2 {
        return &[];
    }
    let Some(octets) = message.section(number) else {
        unreachable!();
    };
    octets
}

/// The octets of the section with this number that is in force for a field, counted from 1, of a message of edition 2.
/// There are none where it is absent.
fn second_section<'a>(message: &ReadableMessage<'a>, field: u32, number: u8) -> &'a [u8]
    requires first { 1 ≤ field }
    requires last { field ≤ field_count message.now }
    requires low { 1 ≤ number }
    requires high { number ≤ 7 }
    ensures { result.now ≡ part_octets message.now field number }
{
    match message.part(field, number) {
        None => &[],
        Some(section) => section.octets,
    }
}
