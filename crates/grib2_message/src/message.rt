//! A message that was read.

ghost use Rattle.std.specs.Prelude.{◌≡◌, ◌≢◌, ◌≤◌, true, length, None, Some, MatchOption, IfOk, IsOk};
ghost use Rattle.grib_base.specs.declared.profile.Profile.{Profile};
ghost use Rattle.grib2_sections.specs.Frame.{placed_at};
ghost use Rattle.grib2_grids.specs.Grid.{list_octets};
ghost use Rattle.grib2_grids.specs.Opaque as opaque_grids;
ghost use Rattle.grib2_grids.specs.Spelled as grids;
ghost use Rattle.grib2_products.specs.Product.{coordinate_count, time_ranges};
ghost use Rattle.grib2_products.specs.Opaque as opaque_products;
ghost use Rattle.grib2_products.specs.Spelled as products;
ghost use Rattle.grib2_message.specs.Fields as definitions;
ghost use Rattle.grib2_message.specs.Fields.{field_count, field_sections, part_octets, field_bitmap, field_bitmap_start};
ghost use Rattle.grib2_message.specs.Message.{IsAnyMessage, AnyFieldPasses};
ghost use Rattle.grib2_message.specs.Kept.{IsField, Keeps};

use crate::columns::own_bitmap;
use crate::places::Places;
use grib_base::Section;
use grib2_grids::{GridSection, grid_of, is_opaque_grid};
use grib2_products::{ProductSection, is_opaque_product, product_of};
use std::alloc::{AllocError, Global};
use std::marker::Model;

/// A message of edition 2 that is accepted by a profile of docs/PROFILE.md (WMO-No. 306, Volume I.2, FM 92
/// GRIB edition 2). Its grids, products and packings may be opaque. A clause sees its octets, from `GRIB` to
/// `7777`. It keeps where the sections of each field begin.
#[derive(Debug, Drop)]
pub struct Message<'a> {
    octets: &'a [u8],
    fields: Vec<Places>,
}

impl<'a> Model for Message<'a> {
    ghost use Rattle.std.specs.Prelude.{List, ℕ};

    ghost Value = { List ℕ };

    ghost use Rattle.grib2_message.specs.Kept.{KeepsUnderSome};

    ghost view = { λ message. message.octets.now };

    ghost invariant = { λ message. KeepsUnderSome message.octets.now message.fields.items };
}

impl<'a> Message<'a> {
    /// The message of these octets, of which this was kept.
    pub(crate) fn of(octets: &'a [u8], fields: Vec<Places>) -> Message<'a>
        requires { (profile : Profile) × Keeps profile octets.now fields.items }
        ensures { result ≡ octets.now }
    {
        Message { octets, fields }
    }

    /// The number of octets.
    pub fn length(&self) -> u64
        ensures { result ≡ length self.now }
    {
        self.octets.len() as u64
    }

    /// The number of fields.
    pub fn fields(&self) -> u32
        ensures count { result ≡ field_count self.now }
        ensures some { 1 ≤ result }
        ensures few { result ≤ 4096 }
    {
        self.fields.len() as u32
    }

    /// Where the sections in force for a field begin, and what they say. Fields count from 1.
    pub(crate) fn places(&self, field: u32) -> &Places
        requires first { 1 ≤ field }
        requires last { field ≤ field_count self.now }
        ensures kept { IsField self.now (field_sections self.now field) result.now }
        ensures passes { AnyFieldPasses self.now field }
    {
        &self.fields[field as usize - 1]
    }

    /// The octets from `GRIB` to `7777`.
    pub fn octets(&self) -> &'a [u8]
        ensures octets { result.now ≡ self.now }
        ensures message { IsAnyMessage self.now }
    {
        self.octets
    }

    /// The section with this number, 1 to 7, that is in force for a field, counted from 1: the last one
    /// that stands before the end of the field. Only Section 2 may be absent. No rule of the profile
    /// refuses the sections of a field, so each has the octets that these rules ask for.
    pub fn part(&self, field: u32, section: u8) -> Option<Section<'a>>
        requires first { 1 ≤ field }
        requires last { field ≤ field_count self.now }
        requires low { 1 ≤ section }
        requires high { section ≤ 7 }
        ensures part { MatchOption result (definitions.part self.now field section ≡ None)
            (λ found. (definitions.part self.now field section
            ≡ Some (placed_at found.start found.octets.now))
            × (found.octets.now ≡ part_octets self.now field section)
            × (found.number ≡ section)) }
        ensures present { section ≢ 2 → result ≢ None }
        ensures passes { AnyFieldPasses self.now field }
    {
        let places = self.places(field);
        if places.starts[section as usize] == 0 {
            return None;
        }
        Some(places.section(self.octets, section))
    }

    /// The grid of a field: what the Section 3 in force for it says. There is none exactly where the grid is
    /// opaque. Fields count from 1.
    ///
    /// # Errors
    ///
    /// There is no memory for the list of rows, where there is one.
    pub fn grid(&self, alloc: Global, field: u32) -> Result<Option<GridSection>, AllocError>
        requires first { 1 ≤ field }
        requires last { field ≤ field_count self.now }
        ensures numbers { IfOk result (λ grid. MatchOption grid (opaque_grids.is_opaque_grid (part_octets self.now field 3) ≡ true)
            (λ grid. grids.Spelled grid (part_octets self.now field 3))) }
        ensures memory { list_octets (part_octets self.now field 3) ≡ 0 → IsOk result }
    {
        let Some(section) = self.part(field, 3) else {
            unreachable!();
        };
        if is_opaque_grid(section.octets) {
            return Ok(None);
        }
        Ok(Some(grid_of(alloc, section.octets)?))
    }

    /// The product of a field: what the Section 4 in force for it says. There is none exactly where the
    /// product is opaque. Fields count from 1.
    ///
    /// # Errors
    ///
    /// There is no memory for the time ranges or the coordinate values, where there are any.
    pub fn product(&self, alloc: Global, field: u32) -> Result<Option<ProductSection>, AllocError>
        requires first { 1 ≤ field }
        requires last { field ≤ field_count self.now }
        ensures numbers { IfOk result (λ product. MatchOption product (opaque_products.is_opaque_product (part_octets self.now field 4) ≡ true)
            (λ product. products.Spelled product (part_octets self.now field 4))) }
        ensures memory { time_ranges (part_octets self.now field 4) ≡ 0
            → coordinate_count (part_octets self.now field 4) ≡ 0 → IsOk result }
    {
        let Some(section) = self.part(field, 4) else {
            unreachable!();
        };
        if is_opaque_product(section.octets) {
            return Ok(None);
        }
        Ok(Some(product_of(alloc, section.octets)?))
    }

    /// The Section 6 with the bits of a field, counted from 1: that in force for it, or, where that repeats
    /// an earlier bitmap (indicator 254 of code table 6.0), the last one before it with bits of its own.
    pub fn bitmap(&self, field: u32) -> Section<'a>
        requires first { 1 ≤ field }
        requires last { field ≤ field_count self.now }
        ensures octets { result.octets.now ≡ field_bitmap self.now field }
        ensures start { result.start ≡ field_bitmap_start self.now field }
        ensures number { result.number ≡ 6 }
    {
        own_bitmap(self.octets, self.places(field))
    }
}
