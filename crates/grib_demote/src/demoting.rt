//! Demotion of a field.

ghost use Rattle.std.specs.Prelude.{◌≡◌, ◌+◌, ◌*◌, ◌^◌, ◌≤◌, ◌<◌, ◌++◌, None, Some, true, false, List, [], ◌∷◌, length, MatchResult, IfOk, OnOk};
ghost use Rattle.grib_bits.specs.Listed.{numbers_octets};
ghost use Rattle.grib_packing.specs.Misfits.{ToSimple};
ghost use Rattle.grib_packing.specs.Packing.{reference_word};
ghost use Rattle.grib2_grids.specs.Opaque.{is_opaque_grid};
ghost use Rattle.grib2_grids.specs.Whole.{IsWhole};
ghost use Rattle.grib2_products.specs.Opaque.{is_opaque_product};
ghost use Rattle.grib2_grids.specs.Grid.{grid_points, grid_template, row_list};
ghost use Rattle.grib2_products.specs.Spelled.{coordinate_list};
ghost use Rattle.grib2_message.specs.Fields.{field_count, part_octets, column_of};
ghost use Rattle.grib_repack.specs.Repacked.{packed_field};
ghost use Rattle.grib_demote.specs.Losses as losses;
ghost use Rattle.grib_demote.specs.Losses.{first_of, form_losses};
ghost use Rattle.grib_bits.specs.Encoding.{all_octets};
ghost use Rattle.grib_demote.specs.Grids as grids;
ghost use Rattle.grib_demote.specs.Products as products;
ghost use Rattle.grib_demote.specs.Demoted as spec;
ghost use Rattle.grib_demote.specs.Demoted.{demoted, first_loss};
ghost use Rattle.grib_demote.specs.Answered.{IsDemoteFault};
ghost use Rattle.grib_demote.specs.Held.{Holds, HoldsPacked, IsDemoted};

use crate::DemoteFault;
use crate::checking::{check_product, coordinate_loss, form_loss};
use crate::field::{Field, there};
use crate::grid::{add_header, add_template, type_of};
use crate::product::{Told, product_octets};
use crate::tested::grid_loss;
use crate::values::{add_bitmap, data_octets, has_bitmap};
use crate::word::ibm_of;
use grib_base::List;
use grib_bits::Number::{Four, Two};
use grib_bits::{add_numbers, add_section1, add_uint, u16_at, u32_at};
use grib_packed::laws::one_packing_is_written;
use grib_packing::{PackFault, Packed};
use grib_params::{Table, TableMatch};
use grib_reasons::Demotion;
use grib2_message::ReadableMessage;
use std::alloc::{AllocError, Global};

/// The most octets of a message of edition 1.
const MOST_OCTETS: u64 = 16_777_215;

/// The message of edition 1 that has the values of a field of this message, counted from 1: the exact value or the
/// missing value of each point, and the first version and parameter that the table has for its centre and parameter,
/// with the versions of the master and the local tables as `matching` says.
/// Octets for local use, Section 2, become octets 41 and further of Section 1 where they are to be
/// preserved. With `any_earth` the shape of the earth is dropped where edition 1 has no place for it.
///
/// # Errors
///
/// The first thing of the field that would be lost, or there is no memory.
pub fn demote(
    alloc: Global,
    message: &ReadableMessage<'_>,
    field: u32,
    table: &Table,
    matching: TableMatch,
    keep_local: bool,
    any_earth: bool,
) -> Result<Vec<u8>, DemoteFault>
    requires first { 1 ≤ field }
    requires last { field ≤ field_count message.now }
    ensures { MatchResult result
        (λ octets. (first_loss table.now matching keep_local any_earth message.now field ≡ None)
        × (octets.items ≡ demoted table.now matching keep_local message.now field))
        (IsDemoteFault (first_loss table.now matching keep_local any_earth message.now field)) }
{
    let parts = Field::of(message, field);
    let told = check_product(&parts, table, matching)?;
    let grid = grid_octets(alloc, message, field, keep_local, any_earth)?;
    let packed = pack_simply(alloc, message, field)?;
    let points = u32_at(parts.grid, 7);
    let sections = all_sections(
        alloc,
        &parts,
        &told,
        keep_local,
        grid.as_slice(),
        &packed,
        points,
    )?;
    whole_message(alloc, sections.as_slice())
}

/// Octet 4 and further of Section 2, or the first thing of Section 2 of the field, of its grid or of its vertical
/// coordinates that would be lost.
fn grid_octets(
    alloc: Global,
    message: &ReadableMessage<'_>,
    field: u32,
    keep_local: bool,
    any_earth: bool,
) -> Result<Vec<u8>, DemoteFault>
    requires first { 1 ≤ field }
    requires last { field ≤ field_count message.now }
    requires grid { is_opaque_grid (part_octets message.now field 3) ≡ false }
    requires product { is_opaque_product (part_octets message.now field 4) ≡ false }
    ensures { MatchResult result
        (λ octets. (first_of (losses.shape_losses keep_local any_earth message.now field) ≡ None)
        × (octets.items ≡ spec.grid_octets (coordinate_list (part_octets message.now field 4))
        (part_octets message.now field 3)))
        (IsDemoteFault (first_of (losses.shape_losses keep_local any_earth message.now field))) }
{
    let parts = Field::of(message, field);
    let rows = rows_of(alloc, message, field)?;
    if let Some(loss) = form_loss(&parts, rows.as_slice(), keep_local, any_earth) {
        return Err(DemoteFault::Lost(loss));
    }
    if let Some(loss) = grid_loss(parts.grid) {
        return Err(DemoteFault::Lost(loss));
    }
    let coordinates = coordinates_of(alloc, message, field)?;
    if let Some(loss) = coordinate_loss(coordinates.as_slice()) {
        return Err(DemoteFault::Lost(loss));
    }
    Ok(grid_section(alloc, parts.grid, coordinates.as_slice(), rows.as_slice())?)
}

/// The list of rows of the grid of a field.
fn rows_of(
    alloc: Global,
    message: &ReadableMessage<'_>,
    field: u32,
) -> Result<List<u32>, AllocError>
    requires first { 1 ≤ field }
    requires last { field ≤ field_count message.now }
    requires stated { is_opaque_grid (part_octets message.now field 3) ≡ false }
    ensures { IfOk result (λ rows. rows ≡ row_list (part_octets message.now field 3)) }
{
    let Some(grid) = message.message().grid(alloc, field)? else {
        unreachable!();
    };
    Ok(grid.rows)
}

/// The vertical coordinates of the product of a field.
fn coordinates_of(
    alloc: Global,
    message: &ReadableMessage<'_>,
    field: u32,
) -> Result<List<u32>, AllocError>
    requires first { 1 ≤ field }
    requires last { field ≤ field_count message.now }
    requires stated { is_opaque_product (part_octets message.now field 4) ≡ false }
    ensures { IfOk result (λ words. words ≡ coordinate_list (part_octets message.now field 4)) }
{
    let product = message.message().product(alloc, field)?;
    let Some(found) = product else {
        unreachable!();
    };
    Ok(found.coordinates)
}

/// Octet 4 and further of Section 2, with these vertical coordinates and this list of rows.
fn grid_section(
    alloc: Global,
    section3: &[u8],
    coordinates: &[u32],
    rows: &[u32],
) -> Result<Vec<u8>, AllocError>
    requires whole { IsWhole section3.now }
    requires rows { rows.now ≡ row_list section3.now }
    requires few { length coordinates.now ≤ 255 }
    ensures { IfOk result (λ octets. octets.items ≡ spec.grid_octets coordinates.now section3.now) }
{
    let grid_type = type_of(u16_at(section3, 13)).unwrap_or(0);
    let mut octets = Vec::new(alloc);
    add_header(coordinates.len() as u8, grid_type, section3, &mut octets)?;
    add_template(section3, &mut octets)?;
    add_coordinates(coordinates, &mut octets)?;
    add_rows(rows, &mut octets)?;
    Ok(octets)
}

/// Adds the vertical coordinates as IBM words.
fn add_coordinates(coordinates: &[u32], out: &mut Vec<u8>) -> Result<(), AllocError>
    ensures { OnOk result (out.new.items ≡ out.old.items ++ all_octets (products.coordinate_numbers coordinates.now)) }
{
    for word in coordinates {
        add_numbers(&[Four(ibm_of(*word).unwrap_or(0))], out)?;
    }
    Ok(())
}

/// Adds the list of rows, two octets for each.
fn add_rows(rows: &[u32], out: &mut Vec<u8>) -> Result<(), AllocError>
    ensures { OnOk result (out.new.items ≡ out.old.items ++ numbers_octets 2 rows.now) }
{
    for row in rows {
        add_numbers(&[Two(*row)], out)?;
    }
    Ok(())
}

/// Sections 5, 6 and 7 of a field in simple packing, or the loss of its reference value or of its first point that
/// does not fit. No column is made of a field that stands in simple packing.
fn pack_simply(
    alloc: Global,
    message: &ReadableMessage<'_>,
    field: u32,
) -> Result<Packed, DemoteFault>
    requires first { 1 ≤ field }
    requires last { field ≤ field_count message.now }
    ensures { MatchResult result
        (λ packed. (first_of (losses.value_losses message.now field) ≡ None)
        × (packed ≡ packed_field ToSimple message.now field) × HoldsPacked packed)
        (IsDemoteFault (first_of (losses.value_losses message.now field))) }
{
    one_packing_is_written();
    let section5 = there(message, field, 5).octets;
    if loses_reference(section5) {
        return Err(DemoteFault::Lost(Demotion::Reference));
    }
    match grib_repack::pack_simply(alloc, message, field) {
        Ok(packed) => Ok(packed),
        Err(PackFault::SecondaryMissing(point)) => {
            Err(DemoteFault::Lost(Demotion::SecondaryMissing(point)))
        }
        Err(PackFault::OutOfRange(point)) => Err(DemoteFault::Lost(Demotion::OutOfRange(point))),
        Err(PackFault::DifferenceRange) => unreachable!(),
        Err(PackFault::Memory) => Err(DemoteFault::Memory),
    }
}

/// Whether the reference value has no IBM word.
fn loses_reference(section5: &[u8]) -> bool
    requires { 21 ≤ length section5.now }
    ensures { result ≡ losses.loses_reference section5.now }
{
    ibm_of(u32_at(section5, 12)).is_none()
}

/// Sections 1 to 4, with these octets of Section 2 and these of simple packing.
fn all_sections(
    alloc: Global,
    field: &Field<'_>,
    told: &Told,
    keep_local: bool,
    grid: &[u8],
    packed: &Packed,
    points: u32,
) -> Result<Vec<u8>, AllocError>
    requires field { IsDemoted field.now }
    requires packed { HoldsPacked packed.now }
    ensures { IfOk result (λ sections. sections.items ≡ spec.all_sections told.now keep_local
        field.now.identification.now field.now.local.now field.now.product.now field.now.packing.now
        grid.now packed.now points) }
{
    let identification = product_octets(alloc, field, told, keep_local, has_bitmap(packed))?;
    let data = data_octets(alloc, field.packing, packed)?;
    let mut sections = Vec::new(alloc);
    add_section1(identification.as_slice(), &mut sections)?;
    add_section1(grid, &mut sections)?;
    add_bitmap(alloc, packed, points, &mut sections)?;
    add_section1(data.as_slice(), &mut sections)?;
    Ok(sections)
}

/// The message with these sections after Section 0, if it is not too long.
fn whole_message(alloc: Global, sections: &[u8]) -> Result<Vec<u8>, DemoteFault>
    ensures { MatchResult result
        (λ octets. (spec.length_loss (length (spec.message_with sections.now)) ≡ None)
        × (octets.items ≡ spec.message_with sections.now))
        (IsDemoteFault (spec.length_loss (length (spec.message_with sections.now)))) }
{
    let total = 8 + sections.len() as u64 + 4;
    if total > MOST_OCTETS {
        return Err(DemoteFault::Lost(Demotion::TooLong(total)));
    }
    let mut octets = Vec::with_capacity(alloc, total as usize)?;
    octets.extend_from_slice(b"GRIB")?;
    add_uint(total, 3, &mut octets)?;
    octets.extend_from_slice(&[1])?;
    octets.extend_from_slice(sections)?;
    octets.extend_from_slice(b"7777")?;
    Ok(octets)
}
