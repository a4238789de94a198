//! The message that is made from a number.

ghost use Rattle.std.specs.Prelude.{◌≡◌, ◌+◌, ◌^◌, ◌<◌, ◌≤◌, ◌++◌, length, None, IfOk, OnOk};
ghost use Rattle.grib_packing.specs.Misfits.{ToSimple, first_misfit};
ghost use Rattle.grib_packing.specs.Packed.{IsSimple};
ghost use Rattle.grib_packing.specs.Written.{MayBePacked};
ghost use Rattle.grib_synthetic.specs.Made.{made, made_grid, made_identification, made_indicator, made_product, message_with};
ghost use Rattle.grib_synthetic.specs.Sections.{grid_with, product_with};

use crate::points::make_points;
use grib_base::List;
use grib_packing::{Column, PackFault, Packed, Packing, octets_written, room_for};
use grib_simple::SimplePacking;
use grib2_grids::{Grid, GridSection, LatLon, write_grid};
use grib2_products::{Instant, Product, ProductSection, write_product};
use grib2_sections::{Identification, write_identification};
use std::alloc::{AllocError, Global};

/// Octets 1 to 8 of Section 0: edition 2, discipline 0.
const INDICATOR: [u8; 8] = [0x47, 0x52, 0x49, 0x42, 0x00, 0x00, 0x00, 0x02];

/// Section 1: centre 98, forecast products of 2024-01-15 12:00:00.
const IDENTIFICATION: Identification = Identification {
    centre: 98,
    sub_centre: 0,
    master: 2,
    local: 0,
    significance: 1,
    year: 2024,
    month: 1,
    day: 15,
    hour: 12,
    minute: 0,
    second: 0,
    status: 0,
    data_type: 1,
};

/// Template 4.0: temperature, 6 hours ahead, 2 m above ground.
const TEMPERATURE: Instant = Instant {
    category: 0,
    number: 0,
    process: 2,
    background: MISSING_OCTET,
    generator: 1,
    cutoff_hours: 0,
    cutoff_minutes: 0,
    unit: 1,
    time: 6,
    surface1: 103,
    scale1: 0,
    value1: 2,
    surface2: MISSING_OCTET,
    scale2: MISSING_OCTET,
    value2: MISSING,
};

/// A number of one octet that is missing.
const MISSING_OCTET: u8 = 255;

/// A number of four octets that is missing.
const MISSING: u32 = 0xffff_ffff;

/// The bit of a number of four octets that says that it is below 0.
const BELOW_ZERO: u32 = 0x8000_0000;

/// A right angle and 359 degrees, in 10^-6 degree.
const RIGHT_ANGLE: u32 = 90_000_000;

const LAST_MERIDIAN: u32 = 359_000_000;

/// The octets of Sections 1, 3 and 4 together.
const FIRST_SECTIONS: u32 = 127;

/// The octets of Sections 0, 1, 3 and 4 and of the end mark together.
const FIXED_OCTETS: usize = 147;

/// A message of edition 2 with one field of nj rows of ni points, in simple packing, which is made from
/// the seed: the same one each time. It is accepted, and its field fits every packing. The seed is below
/// 2^31, `ni` and `nj` are 1 to 4,096. Memory for the points is taken before the first of them is made,
/// and memory for the message before its first octet is written.
///
/// # Errors
///
/// There is no memory for the points or for the message.
pub fn made_message(alloc: Global, seed: u32, ni: u32, nj: u32) -> Result<Vec<u8>, AllocError>
    requires seed { seed < 2 ^ 31 }
    requires some_columns { 1 ≤ ni }
    requires few_columns { ni ≤ 4096 }
    requires some_rows { 1 ≤ nj }
    requires few_rows { nj ≤ 4096 }
    ensures { IfOk result (λ message. message.items ≡ made seed ni nj) }
{
    let points = make_points(alloc, seed, ni, nj)?;
    let column = Column {
        reference: 0xc2ed_4000,
        e: 0x8003,
        d: 0x0001,
        points: List::of(points),
    };
    let parts = pack(alloc, &column)?;
    join(alloc, ni, nj, &parts)
}

/// Sections 5, 6 and 7 of a column that fits simple packing.
fn pack(alloc: Global, column: &Column) -> Result<Packed, AllocError>
    requires may { MayBePacked column.now }
    requires fits { first_misfit ToSimple column.now.points ≡ None }
    ensures { IfOk result (λ parts. IsSimple column.now 0 parts.section5 parts.section6 parts.section7) }
{
    match SimplePacking.pack(alloc, column, 0) {
        Ok(parts) => Ok(parts),
        Err(PackFault::Memory) => Err(AllocError),
        Err(
            PackFault::SecondaryMissing(_) | PackFault::OutOfRange(_) | PackFault::DifferenceRange,
        ) => unreachable!(),
    }
}

/// The message of nj rows of ni points with these sections.
fn join(alloc: Global, ni: u32, nj: u32, parts: &Packed) -> Result<Vec<u8>, AllocError>
    requires some_columns { 1 ≤ ni }
    requires few_columns { ni ≤ 4096 }
    requires some_rows { 1 ≤ nj }
    requires few_rows { nj ≤ 4096 }
    requires short { length parts.now.section5 + length parts.now.section6
        + length parts.now.section7 ≤ 268435000 }
    ensures { IfOk result (λ message. message.items ≡ message_with ni nj parts.now) }
{
    let section5 = parts.section5.as_slice();
    let section6 = parts.section6.as_slice();
    let section7 = parts.section7.as_slice();
    let total = FIXED_OCTETS + section5.len() + section6.len() + section7.len();
    let mut message = Vec::with_capacity(alloc, total)?;
    add_front(alloc, total as u64, ni, nj, &mut message)?;
    message.extend_from_slice(section5)?;
    message.extend_from_slice(section6)?;
    message.extend_from_slice(section7)?;
    message.extend_from_slice(b"7777")?;
    Ok(message)
}

/// Adds Sections 0, 1, 3 and 4 of a message of this many octets.
fn add_front(
    alloc: Global,
    total: u64,
    ni: u32,
    nj: u32,
    message: &mut Vec<u8>,
) -> Result<(), AllocError>
    requires some_columns { 1 ≤ ni }
    requires few_columns { ni ≤ 4096 }
    requires some_rows { 1 ≤ nj }
    requires few_rows { nj ≤ 4096 }
    ensures { OnOk result (message.new.items ≡ message.old.items
        ++ (made_indicator total ++ made_identification ++ made_grid ni nj ++ made_product)) }
{
    message.extend_from_slice(&INDICATOR)?;
    message.extend_from_slice(&total.to_be_bytes())?;
    message.extend_from_slice(first_sections(alloc, ni, nj)?.as_slice())?;
    Ok(())
}

/// Sections 1, 3 and 4, of nj rows of ni points.
fn first_sections(alloc: Global, ni: u32, nj: u32) -> Result<List<u8>, AllocError>
    requires some_columns { 1 ≤ ni }
    requires few_columns { ni ≤ 4096 }
    requires some_rows { 1 ≤ nj }
    requires few_rows { nj ≤ 4096 }
    ensures { IfOk result (λ sections. sections
        ≡ made_identification ++ made_grid ni nj ++ made_product) }
{
    let mut out = room_for(alloc, FIRST_SECTIONS)?;
    write_identification(&IDENTIFICATION, &mut out);
    write_grid(&grid(alloc, ni, nj), &mut out);
    write_product(&product(alloc), &mut out);
    Ok(octets_written(out))
}

/// Section 3: nj rows of ni points, from 90 N 0 E to 90 S 359 E, increments not given.
fn grid(alloc: Global, ni: u32, nj: u32) -> GridSection
    requires few_columns { ni ≤ 4096 }
    requires few_rows { nj ≤ 4096 }
    ensures { result ≡ grid_with ni nj }
{
    GridSection {
        points: ni * nj,
        list_octets: 0,
        list_meaning: 0,
        rows: List::of(Vec::new(alloc)),
        grid: Grid::LatLon(LatLon {
            shape: 6,
            radius_scale: MISSING_OCTET,
            radius: MISSING,
            major_scale: MISSING_OCTET,
            major: MISSING,
            minor_scale: MISSING_OCTET,
            minor: MISSING,
            ni,
            nj,
            basic: 0,
            subdivisions: MISSING,
            la1: RIGHT_ANGLE,
            lo1: 0,
            flags: 0,
            la2: BELOW_ZERO | RIGHT_ANGLE,
            lo2: LAST_MERIDIAN,
            di: MISSING,
            dj: MISSING,
            scanning: 0,
        }),
    }
}

/// Section 4, without coordinate values.
fn product(alloc: Global) -> ProductSection
    ensures { result ≡ product_with }
{
    ProductSection {
        coordinates: List::of(Vec::new(alloc)),
        product: Product::Instant(TEMPERATURE),
    }
}
