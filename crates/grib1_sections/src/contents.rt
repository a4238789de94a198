//! What a message holds: its column, the numbers of Section 1 and the lists of Section 2.

ghost use Rattle.std.specs.Prelude.{◌≡◌, ◌≢◌, ◌<◌, ◌≤◌, ◌^◌, length, Some, IfOk};
ghost use Rattle.grib1_sections.specs.Acceptance.{grid, data_section};
ghost use Rattle.grib1_sections.specs.Grid.{grid_type, row_list};
ghost use Rattle.grib1_sections.specs.Data.{bit_width};
ghost use Rattle.grib1_sections.specs.Coordinates.{coordinate_list};
ghost use Rattle.grib1_sections.specs.Column.{column1_of};
ghost use Rattle.grib1_sections.specs.Keys.{key1_of, number1_of};
ghost use Rattle.grib1_sections.specs.Message.{SectionsPass, section_of};

use crate::column::read_column;
use crate::key::number_of;
use crate::lists::{read_coordinates, read_rows};
use crate::message::Message1;
use grib_base::MOST_POINTS;
use grib_bits::{signed_of, u8_at};
use grib_keys::Key1;
use grib_packing::Column;
use std::alloc::{AllocError, Global};

impl<'a> Message1<'a> {
    /// What the message holds, one entry for each grid point. The reference value of the column is a
    /// word of the IBM single form.
    ///
    /// # Errors
    ///
    /// There is no memory for the points.
    pub fn column1(&self, alloc: Global) -> Result<Column, AllocError>
        ensures column { IfOk result (λ column. column ≡ column1_of self.now) }
        ensures some { IfOk result (λ column. 1 ≤ length column.points) }
        ensures few { IfOk result (λ column. length column.points ≤ MOST_POINTS) }
    {
        read_column(
            alloc,
            present_section(self, 1),
            self.section(3),
            present_section(self, 4),
            self.points(),
        )
    }

    /// The number of the key, as the octets of Section 1 make it.
    pub fn key1(&self, key: Key1) -> u64
        ensures number { result ≡ key1_of self.now key }
        ensures small { result < 2 ^ 16 }
    {
        number_of(present_section(self, 1), key)
    }

    /// The number of the key as it is printed, with its sign.
    pub fn number1(&self, key: Key1) -> i64
        ensures { result ≡ number1_of self.now key }
    {
        let number = self.key1(key);
        match key {
            Key1::DecimalScale => signed_of(number, 16),
            _ => number as i64,
        }
    }

    /// The type of the grid (code table 6): octet 6 of Section 2.
    pub fn grid_type(&self) -> u8
        ensures { result ≡ grid_type (grid self.now) }
    {
        u8_at(present_section(self, 2), 6)
    }

    /// The bits of each packed number: octet 11 of Section 4.
    pub fn bits(&self) -> u8
        ensures { result ≡ bit_width (data_section self.now) }
    {
        u8_at(present_section(self, 4), 11)
    }

    /// The number of points of each row of a grid whose rows differ in length; else empty.
    ///
    /// # Errors
    ///
    /// There is no memory for the numbers.
    pub fn rows1(&self, alloc: Global) -> Result<Vec<u32>, AllocError>
        ensures { IfOk result (λ rows. rows.items ≡ row_list (grid self.now)) }
    {
        read_rows(alloc, present_section(self, 2))
    }

    /// The vertical coordinates, words of the IBM single form; empty where there are none.
    ///
    /// # Errors
    ///
    /// There is no memory for the words.
    pub fn coordinates1(&self, alloc: Global) -> Result<Vec<u32>, AllocError>
        ensures words { IfOk result (λ words. words.items ≡ coordinate_list (grid self.now)) }
        ensures few { IfOk result (λ words. length words.items ≤ 255) }
    {
        read_coordinates(alloc, present_section(self, 2))
    }
}

/// The section with this number, 1, 2 or 4, which each message has.
fn present_section<'a>(message: &Message1<'a>, number: u8) -> &'a [u8]
    requires low { 1 ≤ number }
    requires high { number ≤ 4 }
    requires present { number ≢ 3 }
    ensures section { section_of message.now number ≡ Some result.now }
    ensures passes { SectionsPass message.now }
{
    let Some(section) = message.section(number) else {
        unreachable!();
    };
    section
}
