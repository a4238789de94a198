//! Migration of a message.

ghost use Rattle.std.specs.Prelude.{◌≡◌, ◌+◌, ◌*◌, ◌^◌, ◌≤◌, ◌<◌, None, true, length, MatchResult, IfOk, OnOk, ◌++◌, option_copied};
ghost use Rattle.grib1_sections.specs.Coordinates.{coordinate_list};
ghost use Rattle.grib_migrate.specs.Labels.{local_section_by};
ghost use Rattle.grib_migrate.specs.Losses.{first_loss, first_loss_with, first_of, number_losses};
ghost use Rattle.grib_migrate.specs.Migrated as spec;
ghost use Rattle.grib_migrate.specs.Migrated.{migrated, migrated_with, bitmap_section, values_section};
ghost use Rattle.grib1_sections.specs.Keys.{key_in};
ghost use Rattle.grib1_sections.specs.Data.{bit_width};
ghost use Rattle.grib1_sections.specs.Frame.{section_length};
ghost use Rattle.grib_keys.specs.declared.key1.Key1.TheVariants.{P1, P2, TimeRange};
ghost use Rattle.grib_migrate.specs.Times.{is_interval};
ghost use Rattle.grib_migrate.specs.Checked.{end_in};
ghost use Rattle.grib_migrate.specs.Held.{Holds, HoldsBits};
ghost use Rattle.grib_migrate.specs.Answered.{IsMigrateFault};

use crate::MigrateFault;
use crate::checking::{Product, check};
use crate::grid::grid_octets;
use crate::labels::{Local, add_local, kept_where};
use crate::product::{identification_octets, product_octets};
use crate::source::Source;
use crate::values::{add_bitmap, add_data, data_bits, packing_octets};
use grib_base::MOST_POINTS;
use grib_bits::{add_section, u8_at};
use grib_params::{SurfaceTable, Table};
use grib1_sections::Message1;
use std::alloc::{AllocError, Global};

/// The message of edition 2 with one field that has the values of this message of edition 1: the exact value
/// or the missing value of each point, and the parameter that the table has for it. The packed numbers are
/// copied, and not unpacked. Octets 41 and further of Section 1, which are for local use, become
/// Section 2 where they are to be preserved.
///
/// # Errors
///
/// The first thing of the message that would be lost, or there is no memory.
pub fn migrate(
    alloc: Global,
    message: &Message1<'_>,
    table: &Table,
    keep_local: bool,
) -> Result<Vec<u8>, MigrateFault>
    ensures { MatchResult result
        (λ octets. (first_loss table.now keep_local message.now ≡ None)
        × (octets.items ≡ migrated table.now keep_local message.now))
        (IsMigrateFault (first_loss table.now keep_local message.now)) }
{
    let none = SurfaceTable::new(alloc);
    migrate_with(alloc, message, table, &none, kept_where(keep_local))
}

/// As `migrate`, with two further choices. A parameter whose name says its level may be in a table of surfaces:
/// where that has a record for the message, its parameter and its fixed surface are written, and the parameter
/// table and the table of levels are not asked. `local` says what becomes of the octets for local use.
///
/// # Errors
///
/// The first thing of the message that would be lost, or there is no memory.
pub fn migrate_with(
    alloc: Global,
    message: &Message1<'_>,
    table: &Table,
    surfaces: &SurfaceTable,
    local: Local,
) -> Result<Vec<u8>, MigrateFault>
    ensures { MatchResult result
        (λ octets. (first_loss_with table.now surfaces.now local message.now ≡ None)
        × (octets.items ≡ migrated_with table.now surfaces.now local message.now))
        (IsMigrateFault (first_loss_with table.now surfaces.now local message.now)) }
{
    let source = Source::of(message);
    let product = check(source.identification, source.grid, table, surfaces, local)?;
    let coordinates = message.coordinates1(alloc)?;
    let front = front_sections(alloc, &source, &product, coordinates.as_slice(), local)?;
    Ok(whole_message(alloc, product.target.discipline, front.as_slice(), &source)?)
}

/// Sections 1 to 5, or the first number that is lost.
fn front_sections(
    alloc: Global,
    source: &Source<'_>,
    product: &Product,
    coordinates: &[u32],
    local: Local,
) -> Result<Vec<u8>, MigrateFault>
    requires holds { Holds source.now.identification.now source.now.grid.now
        (option_copied source.now.bitmap) source.now.numbers.now source.now.points source.now.values }
    requires coordinates { coordinates.now ≡ coordinate_list source.now.grid.now }
    requires few { length coordinates.now ≤ 255 }
    requires end { product.now.end ≡ end_in source.now.identification.now product.now.unit.seconds }
    requires ordered { is_interval (key_in source.now.identification.now TimeRange) ≡ true
        → key_in source.now.identification.now P1 ≤ key_in source.now.identification.now P2 }
    ensures { MatchResult result
        (λ front. (first_of (number_losses source.now.grid.now source.now.numbers.now) ≡ None)
        × (front.items ≡ spec.front_sections product.now.target product.now.unit
        product.now.surfaces product.now.member (local_section_by local source.now.identification.now)
        source.now.identification.now source.now.grid.now
        source.now.numbers.now source.now.points source.now.values)
        × (length front.items ≤ 2 ^ 30))
        (IsMigrateFault (first_of (number_losses source.now.grid.now source.now.numbers.now))) }
{
    let section1 = source.identification;
    let identification = identification_octets(alloc, section1, &product.target)?;
    let grid = grid_octets(alloc, source.grid, source.points)?;
    few_octets(section1);
    let product = product_octets(alloc, section1, product, coordinates)?;
    let packing = packing_octets(alloc, section1, source.numbers, source.values)?;
    let mut front = Vec::new(alloc);
    add_section(1, identification.as_slice(), &mut front)?;
    add_local(section1, local, &mut front)?;
    add_section(3, grid.as_slice(), &mut front)?;
    add_section(4, product.as_slice(), &mut front)?;
    add_section(5, packing.as_slice(), &mut front)?;
    Ok(front)
}

/// Section 1 has fewer than 2^24 octets, since three octets count them.
fn few_octets(section1: &[u8])
    requires long { 28 ≤ length section1.now }
    requires stands { section_length section1.now ≡ length section1.now }
    ensures { length section1.now < 2 ^ 24 }
{
    let _length = u8_at(section1, 1);
}

/// The message with this discipline, these Sections 1 to 5, and the bitmap and the numbers of the source. Its
/// memory is taken once.
fn whole_message(
    alloc: Global,
    discipline: u8,
    front: &[u8],
    source: &Source<'_>,
) -> Result<Vec<u8>, AllocError>
    requires holds { Holds source.now.identification.now source.now.grid.now
        (option_copied source.now.bitmap) source.now.numbers.now source.now.points source.now.values }
    requires short { length front.now ≤ 2 ^ 30 }
    ensures { IfOk result (λ octets. octets.items ≡ spec.whole_message discipline front.now
        (option_copied source.now.bitmap) source.now.numbers.now source.now.points source.now.values) }
{
    let total = 16 + front.len() + bitmap_length(source) + data_length(source) + 4;
    let mut octets = Vec::with_capacity(alloc, total)?;
    octets.extend_from_slice(&[b'G', b'R', b'I', b'B', 0, 0, discipline, 2])?;
    octets.extend_from_slice(&(total as u64).to_be_bytes())?;
    octets.extend_from_slice(front)?;
    add_bitmap(source.bitmap, source.points, &mut octets)?;
    add_data(source.numbers, source.values, &mut octets)?;
    octets.extend_from_slice(b"7777")?;
    Ok(octets)
}

/// The number of octets of Section 6.
fn bitmap_length(source: &Source<'_>) -> usize
    requires few { source.now.points ≤ MOST_POINTS }
    requires bits { HoldsBits (option_copied source.now.bitmap) source.now.points }
    ensures length { result ≡ length (bitmap_section (option_copied source.now.bitmap) source.now.points) }
    ensures few { result ≤ 4194310 }
{
    match source.bitmap {
        Some(_) => 6 + (source.points as usize).div_ceil(8),
        None => 6,
    }
}

/// The number of octets of Section 7.
fn data_length(source: &Source<'_>) -> usize
    requires head { 11 ≤ length source.now.numbers.now }
    requires numbers { source.now.values * bit_width source.now.numbers.now + 88 ≤ 8 * length source.now.numbers.now }
    ensures { result ≡ length (values_section source.now.numbers.now source.now.values) }
{
    5 + data_bits(source.numbers, source.values).div_ceil(8)
}
