//! Section 1: the product.

ghost use Rattle.std.specs.Prelude.{◌≡◌, ◌+◌, ◌*◌, ◌≤◌, ◌<◌, ◌^◌, ◌++◌, true, false, length, OnOk, IfOk};
ghost use Rattle.grib_bits.specs.Bits.{digit};
ghost use Rattle.grib_bits.specs.Encoding.{all_octets};
ghost use Rattle.grib_demote.specs.Dates as dates;
ghost use Rattle.grib_demote.specs.Times as times;
ghost use Rattle.grib_demote.specs.Held.{IsDemoted};
ghost use Rattle.grib_demote.specs.Products as products;

use crate::date::{century, reference_time, year_of_century};
use crate::field::Field;
use crate::level::Level;
use crate::time::time_range;
use grib_bits::Number::{One, Two};
use grib_bits::{Number, add_numbers, u8_at, u16_at};
use std::alloc::{AllocError, Global};

/// What Section 1 has of a product.
#[derive(Clone, Copy, Debug)]
pub struct Told {
    /// The version of the table of parameters: octet 4.
    pub version: u8,
    /// The parameter: octet 9.
    pub parameter: u8,
    /// The level: octets 10 to 12.
    pub level: Level,
    /// The unit of time: octet 18.
    pub unit: u8,
}

/// Octet 4 and further of Section 1, of a message with or without a bitmap.
pub(crate) fn product_octets(
    alloc: Global,
    field: &Field<'_>,
    told: &Told,
    keep_local: bool,
    has_bitmap: bool,
) -> Result<Vec<u8>, AllocError>
    requires { IsDemoted field.now }
    ensures { IfOk result (λ octets. octets.items ≡ all_octets (products.identification_numbers told.now
        has_bitmap field.now.identification.now field.now.product.now field.now.packing.now)
        ++ products.local_octets keep_local field.now.local.now) }
{
    let mut octets = Vec::new(alloc);
    let numbers = identification_numbers(field, told, has_bitmap);
    add_numbers(&numbers, &mut octets)?;
    add_local(field.local, keep_local, &mut octets)?;
    Ok(octets)
}

/// The numbers of octets 4 to 28.
fn identification_numbers(field: &Field<'_>, told: &Told, has_bitmap: bool) -> [Number; 22]
    requires { IsDemoted field.now }
    ensures { result ≡ products.identification_numbers told.now has_bitmap field.now.identification.now
        field.now.product.now field.now.packing.now }
{
    let section1 = field.identification;
    let date = reference_time(section1);
    let range = time_range(field.product);
    [
        One(told.version),
        One(u16_at(section1, 6) as u8),
        One(u8_at(field.product, 14)),
        One(255),
        One(flags_of(has_bitmap)),
        One(told.parameter),
        One(told.level.level_type),
        Two(u32::from(told.level.number)),
        One(year_of_century(section1)),
        One(date.month),
        One(date.day),
        One(date.hour),
        One(date.minute),
        One(told.unit),
        One(range.p1),
        One(range.p2),
        One(range.indicator),
        Two(0),
        One(range.missing),
        One(century(section1)),
        One(u16_at(section1, 8) as u8),
        Two(u32::from(u16_at(field.packing, 18))),
    ]
}

/// Octet 8: Section 2 is there, and Section 3 where there is a bitmap.
fn flags_of(has_bitmap: bool) -> u8
    ensures { result ≡ 128 + 64 * digit has_bitmap }
{
    128 + 64 * u8::from(has_bitmap)
}

/// Adds octets 29 and further, where the octets for local use are preserved and there are any.
fn add_local(local: &[u8], keep_local: bool, out: &mut Vec<u8>) -> Result<(), AllocError>
    ensures { OnOk result (out.new.items ≡ out.old.items ++ products.local_octets keep_local local.now) }
{
    if keep_local && has_local(local) {
        out.extend_from_slice(&[0; 12])?;
        out.extend_from_slice(&local[5..])?;
    }
    Ok(())
}

/// Whether Section 2 has octets for local use.
pub(crate) fn has_local(local: &[u8]) -> bool
    ensures { result ≡ products.has_local local.now }
{
    local.len() > 5
}
