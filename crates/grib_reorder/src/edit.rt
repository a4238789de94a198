//! What is made of a grid.

ghost use Rattle.std.specs.Prelude.{◌≡◌, ◌++◌, length, true, None, IfOk};
ghost use Rattle.grib_base.specs.Rules.{first_fault};
ghost use Rattle.grib2_grids.specs.Grid.{grid_rules, grid_points};
ghost use Rattle.grib_rescan.specs.Sections.{HasTemplate};
ghost use Rattle.grib_rescan.specs.Bounds.{area_within};
ghost use Rattle.grib_rescan.specs.Causes.{HasWithin};
ghost use Rattle.grib_reorder.specs.Rescanned.{Stands, cause_of, section_of, new_column};
ghost use Rattle.grib_reorder.specs.Plain.{takes_numbers, plain_column, PlainStands};
ghost use Rattle.grib_reorder.specs.Lengths.{as_long};

use crate::plain::PlainField;
use grib_bits::{u8_at, u32_at};
use grib_packing::Column;
use grib_rescan::laws::what_has_no_cause;
use grib_rescan::{
    Area, Bounds, GridCause, Scanning, area_in, crop_cause, crop_column, crop_points, crop_section,
    rescan_cause, rescan_column, rescan_columns, rescan_section, within_cause,
};
use grib2_message::NewGrid;
use std::alloc::{AllocError, Global};

/// What is made of a grid.
#[derive(Clone, Copy, Debug, PartialEq, Eq)]
pub enum GridEdit {
    /// Its points in the order of scanning octet 0.
    Rescan,
    /// A subarea of it.
    Crop(Area),
    /// What of it lies within bounds in degrees.
    Within(Bounds),
}

impl GridEdit {
    /// Why a grid with this Section 3 is not edited, if it is not.
    pub(crate) fn cause(&self, section3: &[u8]) -> Option<GridCause>
        requires { HasTemplate section3.now }
        ensures { result ≡ cause_of self.now section3.now }
    {
        match self {
            GridEdit::Rescan => rescan_cause(section3),
            GridEdit::Crop(area) => crop_cause(section3, area),
            GridEdit::Within(bounds) => within_cause(section3, bounds),
        }
    }

    /// What this Section 3 becomes.
    ///
    /// # Errors
    ///
    /// There is no memory for it.
    fn section(&self, alloc: Global, section3: &[u8]) -> Result<Vec<u8>, AllocError>
        requires stands { Stands self.now }
        requires accepted { first_fault (grid_rules section3.now) ≡ None }
        requires uncaused { cause_of self.now section3.now ≡ None }
        ensures { IfOk result (λ new. new.items ≡ section_of self.now section3.now) }
    {
        what_has_no_cause();
        match self {
            GridEdit::Rescan => rescan_section(alloc, section3),
            GridEdit::Crop(area) => crop_section(alloc, section3, area),
            GridEdit::Within(bounds) => crop_section(alloc, section3, &found(section3, bounds)),
        }
    }

    /// What a column of a grid with this Section 3 becomes.
    ///
    /// # Errors
    ///
    /// There is no memory for it.
    pub(crate) fn column(
        &self,
        alloc: Global,
        section3: &[u8],
        column: Column,
    ) -> Result<Column, AllocError>
        requires stands { Stands self.now }
        requires accepted { first_fault (grid_rules section3.now) ≡ None }
        requires uncaused { cause_of self.now section3.now ≡ None }
        requires length { length column.points ≡ grid_points section3.now }
        ensures { IfOk result (λ new. new ≡ new_column self.now section3.now column) }
    {
        what_has_no_cause();
        let (ni, nj) = (u32_at(section3, 31), u32_at(section3, 35));
        match self {
            GridEdit::Rescan => {
                rescan_column(alloc, column, Scanning::of(u8_at(section3, 72)), ni, nj)
            }
            GridEdit::Crop(area) => crop_column(alloc, &column, ni, nj, area),
            GridEdit::Within(bounds) => {
                crop_column(alloc, &column, ni, nj, &found(section3, bounds))
            }
        }
    }

    /// Whether the new column is made without the old one, where the points of a grid with this Section 3 are
    /// packed numbers: a subarea is cut out, or the points of a column are consecutive and go the same way in all of
    /// them.
    pub(crate) fn takes_numbers(&self, section3: &[u8]) -> bool
        requires accepted { first_fault (grid_rules section3.now) ≡ None }
        requires uncaused { cause_of self.now section3.now ≡ None }
        ensures { result ≡ takes_numbers self.now section3.now }
    {
        what_has_no_cause();
        match self {
            GridEdit::Rescan => u8_at(section3, 72) / 16 % 4 == 2,
            GridEdit::Crop(_) | GridEdit::Within(_) => true,
        }
    }

    /// What the column of such a field becomes.
    ///
    /// # Errors
    ///
    /// There is no memory for it.
    pub(crate) fn plain_column(
        &self,
        alloc: Global,
        section3: &[u8],
        field: &PlainField<'_>,
    ) -> Result<Column, AllocError>
        requires stands { Stands self.now }
        requires accepted { first_fault (grid_rules section3.now) ≡ None }
        requires uncaused { cause_of self.now section3.now ≡ None }
        requires takes { takes_numbers self.now section3.now ≡ true }
        requires field { PlainStands (grid_points section3.now) field.now }
        ensures { IfOk result (λ new. new ≡ new_column self.now section3.now (plain_column field.now)) }
    {
        what_has_no_cause();
        let (ni, nj) = (u32_at(section3, 31), u32_at(section3, 35));
        let points = match self {
            GridEdit::Rescan => {
                let scanning = Scanning::of(u8_at(section3, 72));
                rescan_columns(alloc, &field.numbers, scanning, ni, nj)?
            }
            GridEdit::Crop(area) => crop_points(alloc, &field.numbers, ni, nj, area)?,
            GridEdit::Within(bounds) => {
                crop_points(alloc, &field.numbers, ni, nj, &found(section3, bounds))?
            }
        };
        Ok(field.simple.column(points))
    }
}

/// The points within bounds of a grid with this Section 3, out of which they can be cut.
fn found(section3: &[u8], bounds: &Bounds) -> Area
    requires { HasWithin bounds.now section3.now }
    ensures { result ≡ area_within bounds.now section3.now }
{
    let Some(area) = area_in(section3, bounds) else {
        unreachable!();
    };
    area
}

impl NewGrid for GridEdit {
    ghost takes = { λ edit s. Stands edit × (first_fault (grid_rules s) ≡ None) × (cause_of edit s ≡ None) };

    ghost becomes = { section_of };

    ghost as_long = { as_long };

    fn put(&self, alloc: Global, section: &[u8], out: &mut Vec<u8>) -> Result<(), AllocError> {
        let new = self.section(alloc, section)?;
        out.extend_from_slice(&new)
    }
}
