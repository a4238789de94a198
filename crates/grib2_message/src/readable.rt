//! A message whose values can be read.

ghost use Rattle.std.specs.Prelude.{◌≡◌, ◌≢◌, ◌≤◌, ℕ, length, None, Some, MatchOption, MatchResult, IfOk, All};
ghost use Rattle.grib2_sections.specs.Frame.{placed_at};
ghost use Rattle.grib2_grids.specs.Grid.{grid_points};
ghost use Rattle.grib_bitmap.specs.Mask.{present_count};
ghost use Rattle.grib_packing.specs.Entries.{entries_of};
ghost use Rattle.grib_packing.specs.Packing.{value_count};
ghost use Rattle.grib2_message.specs.Fields as definitions;
ghost use Rattle.grib2_message.specs.Fields.{field_count, part_octets, field_bitmap, field_bitmap_start, field_mask, column_of};
ghost use Rattle.grib2_message.specs.Message.{IsAnyMessage, IsReadable, FieldReads, IsFirstOpaque, first_opaque};
ghost use Rattle.grib2_message.specs.Assembled.{assembled, assembled_with, IsShort, IsAssembleFault};

use crate::assembling::{assembled_length, put_together};
use crate::columns::{column_at, mask_at, take_values_at};
use crate::new_grid::SameGrid;
use crate::{AssembleFault, Message, NewGrid};
use grib_base::{MOST_OCTETS, MOST_POINTS, Section};
use grib_bitmap::Mask;
use grib_bits::u16_at;
use grib_packing::{Column, Keeper, Packed, is_opaque};
use std::alloc::{AllocError, Global};
use std::marker::Model;

/// The first field of a message with an opaque packing, for which the values of the message cannot be read.
#[derive(Clone, Copy, Debug, PartialEq, Eq)]
pub struct OpaqueField {
    /// The field, counted from 1.
    pub field: u32,
    /// Its data representation template (code table 5.0).
    pub template: u16,
}

/// A message of edition 2 that is accepted and whose values can be read: no field has an opaque packing.
/// A clause sees its octets, from `GRIB` to `7777`.
#[derive(Debug, Drop)]
pub struct ReadableMessage<'a> {
    message: &'a Message<'a>,
}

impl<'a> Model for ReadableMessage<'a> {
    ghost use Rattle.std.specs.Prelude.{List, ℕ};
    ghost use Rattle.grib2_message.specs.Message.{IsReadable};

    ghost Value = { List ℕ };

    ghost view = { λ readable. readable.message.now };

    ghost invariant = { λ readable. IsReadable readable.message.now };
}

impl<'a> ReadableMessage<'a> {
    /// This message, if its values can be read.
    ///
    /// # Errors
    ///
    /// A field has an opaque packing: the first one, with the number of its template.
    pub fn of(message: &'a Message<'a>) -> Result<ReadableMessage<'a>, OpaqueField>
        ensures { MatchResult result
            (λ readable. (readable ≡ message.now) × IsReadable message.now × (first_opaque message.now ≡ None))
            (IsFirstOpaque message.now) }
    {
        for index in 0..message.fields() {
            let field = index + 1;
            let Some(section) = message.part(field, 5) else {
                unreachable!();
            };
            if is_opaque(section.octets) {
                let template = u16_at(section.octets, 10);
                return Err(OpaqueField { field, template });
            }
        }
        Ok(ReadableMessage { message })
    }

    /// This message, whose values can be read: no field is looked at again.
    pub fn known(message: &'a Message<'a>) -> ReadableMessage<'a>
        requires readable { IsReadable message.now }
        ensures same { result ≡ message.now }
    {
        ReadableMessage { message }
    }

    /// The message.
    pub fn message(&self) -> &'a Message<'a>
        ensures { result.now ≡ self.now }
    {
        self.message
    }

    /// The number of fields.
    pub fn fields(&self) -> u32
        ensures count { result ≡ field_count self.now }
        ensures some { 1 ≤ result }
        ensures few { result ≤ 4096 }
    {
        self.message.fields()
    }

    /// The octets from `GRIB` to `7777`.
    pub fn octets(&self) -> &'a [u8]
        ensures octets { result.now ≡ self.now }
        ensures message { IsAnyMessage self.now }
        ensures readable { IsReadable self.now }
    {
        self.message.octets()
    }

    /// The section with this number, 1 to 7, that is in force for a field, counted from 1: the last one
    /// that stands before the end of the field. Only Section 2 may be absent. No rule of the profile
    /// refuses the sections of a field, so each has the octets that these rules ask for.
    pub fn part(&self, field: u32, section: u8) -> Option<Section<'a>>
        requires first { 1 ≤ field }
        requires last { field ≤ field_count self.now }
        requires low { 1 ≤ section }
        requires high { section ≤ 7 }
        ensures part { MatchOption result (definitions.part self.now field section ≡ None)
            (λ found. (definitions.part self.now field section
            ≡ Some (placed_at found.start found.octets.now))
            × (found.octets.now ≡ part_octets self.now field section)
            × (found.number ≡ section)) }
        ensures present { section ≢ 2 → result ≢ None }
        ensures passes { FieldReads self.now field }
    {
        self.message.part(field, section)
    }

    /// The Section 6 with the bits of a field, counted from 1: that in force for it, or, where that repeats
    /// an earlier bitmap (indicator 254 of code table 6.0), the last one before it with bits of its own.
    pub fn bitmap(&self, field: u32) -> Section<'a>
        requires first { 1 ≤ field }
        requires last { field ≤ field_count self.now }
        ensures octets { result.octets.now ≡ field_bitmap self.now field }
        ensures start { result.start ≡ field_bitmap_start self.now field }
        ensures number { result.number ≡ 6 }
    {
        self.message.bitmap(field)
    }

    /// What a field holds, one entry for each grid point. Fields count from 1.
    ///
    /// # Errors
    ///
    /// There is no memory for the points.
    pub fn column(&self, alloc: Global, field: u32) -> Result<Column, AllocError>
        requires first { 1 ≤ field }
        requires last { field ≤ field_count self.now }
        ensures column { IfOk result (λ column. column ≡ column_of self.now field) }
        ensures some { IfOk result (λ column. 1 ≤ length column.points) }
        ensures few { IfOk result (λ column. length column.points ≤ MOST_POINTS) }
        ensures long { IfOk result (λ column. length column.points ≡ grid_points (part_octets self.now field 3)) }
        ensures passes { FieldReads self.now field }
    {
        column_at(alloc, self.octets(), self.message.places(field))
    }

    /// Which grid points of a field have a value of its Section 7. Fields count from 1.
    ///
    /// # Errors
    ///
    /// There is no memory for the mask.
    pub fn mask(&self, alloc: Global, field: u32) -> Result<Mask, AllocError>
        requires first { 1 ≤ field }
        requires last { field ≤ field_count self.now }
        ensures mask { IfOk result (λ mask. mask ≡ field_mask self.now field) }
        ensures long { IfOk result (λ mask. length mask ≡ grid_points (part_octets self.now field 3)) }
        ensures values { IfOk result (λ mask. present_count mask ≡ value_count (part_octets self.now field 5)) }
        ensures passes { FieldReads self.now field }
    {
        mask_at(alloc, self.octets(), self.message.places(field))
    }

    /// Hands the points of the values of a field on, in their order: one for each grid point that its mask has.
    /// No column is made. Fields count from 1.
    ///
    /// # Errors
    ///
    /// There is no memory. What keeps the points is dropped.
    pub fn take_values<K: Keeper + Drop>(
        &self,
        alloc: Global,
        field: u32,
        keeper: K,
    ) -> Result<K, AllocError>
        requires first { 1 ≤ field }
        requires last { field ≤ field_count self.now }
        ensures kept { IfOk result (λ after.
            K.kept keeper (entries_of (part_octets self.now field 5) (part_octets self.now field 7)) after) }
        ensures count { IfOk result (λ after.
            length (entries_of (part_octets self.now field 5) (part_octets self.now field 7))
            ≡ value_count (part_octets self.now field 5)) }
    {
        take_values_at(alloc, self.octets(), self.message.places(field), keeper)
    }

    /// The message with other Sections 5, 6 and 7, one part for each field in their order. All other
    /// sections are copied octet for octet, and the total length is renewed. The parts are put in as they
    /// are: where each states its length and its number and passes its rules, the message is accepted.
    /// The length is known before any memory is taken.
    ///
    /// # Errors
    ///
    /// The message would have more than 268,435,456 octets, or there is no memory.
    pub fn assemble(&self, alloc: Global, packed: &[Packed]) -> Result<Vec<u8>, AssembleFault>
        requires one_each { length packed.now ≡ field_count self.now }
        requires short { All IsShort packed.now }
        ensures { MatchResult result
            (λ octets. (octets.items ≡ assembled self.now packed.now)
            × (length (assembled self.now packed.now) ≤ MOST_OCTETS))
            (IsAssembleFault (length (assembled self.now packed.now))) }
    {
        self.assemble_with(alloc, &SameGrid, packed)
    }

    /// The message with another grid and other Sections 5, 6 and 7, one part for each field in their order.
    /// All other sections are copied octet for octet, and the total length is renewed. Sections are put in
    /// as they are: where each states its length and its number and passes its rules, the message is
    /// accepted. The length is known before any memory is taken.
    ///
    /// # Errors
    ///
    /// The message would have more than 268,435,456 octets, or there is no memory.
    pub fn assemble_with<G: NewGrid>(
        &self,
        alloc: Global,
        grid: &G,
        packed: &[Packed],
    ) -> Result<Vec<u8>, AssembleFault>
        requires grids { (i : ℕ) → 1 ≤ i → i ≤ field_count self.now → G.takes grid.now (part_octets self.now i 3) }
        requires one_each { length packed.now ≡ field_count self.now }
        requires short { All IsShort packed.now }
        ensures { MatchResult result
            (λ octets. (octets.items ≡ assembled_with (G.becomes grid.now) self.now packed.now)
            × (length (assembled_with (G.becomes grid.now) self.now packed.now) ≤ MOST_OCTETS))
            (IsAssembleFault (length (assembled_with (G.becomes grid.now) self.now packed.now))) }
    {
        let octets = self.octets();
        let total = assembled_length(octets, packed);
        if total > MOST_OCTETS {
            return Err(AssembleFault::TooLong(total));
        }
        Ok(put_together(alloc, octets, grid, packed, total)?)
    }
}
