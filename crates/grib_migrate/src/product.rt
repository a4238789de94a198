//! Sections 1 and 4: the identification and the product.

ghost use Rattle.std.specs.Prelude.{◌≡◌, ◌≤◌, ◌<◌, ◌++◌, None, true, length, MatchResult, OnOk, IfOk};
ghost use Rattle.grib_bits.specs.Encoding.{all_octets};
ghost use Rattle.grib_migrate.specs.Labels.{member_numbers};
ghost use Rattle.grib_migrate.specs.Products as products;
ghost use Rattle.grib_migrate.specs.Losses.{coordinate_loss};
ghost use Rattle.grib1_sections.specs.Keys.{key_in};
ghost use Rattle.grib_keys.specs.declared.key1.Key1.TheVariants.{P1, P2, TimeRange};
ghost use Rattle.grib_migrate.specs.Times as times;
ghost use Rattle.grib_migrate.specs.Dates.{end_of};
ghost use Rattle.grib_migrate.specs.Checked.{end_in};
ghost use Rattle.grib_migrate.specs.Answered.{IsMigrateFault};

use crate::checking::Product;
use crate::date::{Moment, reference_time};
use crate::labels::Member;
use crate::reference::binary32_of;
use crate::time::{forecast_time, is_interval, process_of, statistic};
use crate::{Loss, MigrateFault};
use grib_bits::Number::{Four, One, Two};
use grib_bits::{add_numbers, u8_at};
use grib_params::Target;
use std::alloc::{AllocError, Global};

/// Octet 6 and further of Section 1.
pub(crate) fn identification_octets(
    alloc: Global,
    section1: &[u8],
    target: &Target,
) -> Result<Vec<u8>, AllocError>
    requires { 28 ≤ length section1.now }
    ensures octets { IfOk result (λ octets. octets.items
        ≡ all_octets (products.identification_numbers target.now section1.now)) }
    ensures few { IfOk result (λ octets. length octets.items ≤ 100) }
{
    let start = reference_time(section1);
    let significance = u8::from(process_of(section1) == 2);
    let mut octets = Vec::new(alloc);
    add_numbers(
        &[
            Two(u32::from(u8_at(section1, 5))),
            Two(u32::from(u8_at(section1, 26))),
            One(target.master),
            One(target.local),
            One(significance),
            Two(u32::from(start.year)),
            One(start.month),
            One(start.day),
            One(start.hour),
            One(start.minute),
            One(start.second),
            One(u8::MAX),
            One(u8::MAX),
        ],
        &mut octets,
    )?;
    Ok(octets)
}

/// Octet 6 and further of Section 4, or the first vertical coordinate without a binary32 word.
pub(crate) fn product_octets(
    alloc: Global,
    section1: &[u8],
    product: &Product,
    coordinates: &[u32],
) -> Result<Vec<u8>, MigrateFault>
    requires long { 28 ≤ length section1.now }
    requires few { length coordinates.now ≤ 255 }
    requires end { product.now.end ≡ end_in section1.now product.now.unit.seconds }
    requires ordered { times.is_interval (key_in section1.now TimeRange) ≡ true
        → key_in section1.now P1 ≤ key_in section1.now P2 }
    ensures { MatchResult result
        (λ octets. (coordinate_loss coordinates.now ≡ None) × (octets.items
        ≡ products.product_octets_by product.now.member product.now.target section1.now coordinates.now
        product.now.unit product.now.surfaces) × (length octets.items ≤ 2000))
        (IsMigrateFault (coordinate_loss coordinates.now)) }
{
    let mut octets = Vec::new(alloc);
    add_instant(section1, product, coordinates.len() as u32, &mut octets)?;
    add_member(&product.member, &mut octets)?;
    add_end(section1, product, &mut octets)?;
    add_coordinates(coordinates, &mut octets)?;
    Ok(octets)
}

/// The product template: 4.8 over an interval, else 4.0, and for a member of an ensemble 4.11 and 4.1.
fn template_of(section1: &[u8], member: &Option<Member>) -> u32
    requires { 28 ≤ length section1.now }
    ensures { result ≡ products.template_by member.now section1.now }
{
    match (member, is_interval(u8_at(section1, 21))) {
        (None, false) => 0,
        (None, true) => 8,
        (Some(_), false) => 1,
        (Some(_), true) => 11,
    }
}

/// Adds octets 6 to 34, with `count` coordinate values.
fn add_instant(
    section1: &[u8],
    product: &Product,
    count: u32,
    out: &mut Vec<u8>,
) -> Result<(), AllocError>
    requires { 28 ≤ length section1.now }
    ensures { OnOk result (out.new.items ≡ out.old.items ++ all_octets (products.instant_with
        (products.template_by product.now.member section1.now)
        product.now.target section1.now product.now.unit product.now.surfaces count)) }
{
    let first = product.surfaces.first;
    let second = product.surfaces.second;
    add_numbers(
        &[
            Two(count),
            Two(template_of(section1, &product.member)),
            One(product.target.category),
            One(product.target.number),
            One(process_of(section1)),
            One(u8::MAX),
            One(u8_at(section1, 6)),
            Two(u32::from(u16::MAX)),
            One(u8::MAX),
            One(product.unit.code),
            Four(forecast_time(section1)),
            One(first.kind),
            One(first.scale_factor),
            Four(first.scaled_value),
            One(second.kind),
            One(second.scale_factor),
            Four(second.scaled_value),
        ],
        out,
    )
}

/// Adds octets 35 to 37 of templates 4.1 and 4.11, for a member of an ensemble.
fn add_member(member: &Option<Member>, out: &mut Vec<u8>) -> Result<(), AllocError>
    ensures { OnOk result (out.new.items ≡ out.old.items ++ all_octets (member_numbers member.now)) }
{
    let Some(member) = member else {
        return Ok(());
    };
    add_numbers(&[One(u8::MAX), One(member.number), One(member.size)], out)
}

/// Adds octets 35 to 58 of template 4.8, or 38 to 61 of template 4.11, over an interval.
fn add_end(section1: &[u8], product: &Product, out: &mut Vec<u8>) -> Result<(), AllocError>
    requires long { 28 ≤ length section1.now }
    requires end { product.now.end ≡ end_in section1.now product.now.unit.seconds }
    requires ordered { times.is_interval (key_in section1.now TimeRange) ≡ true
        → key_in section1.now P1 ≤ key_in section1.now P2 }
    ensures { OnOk result (out.new.items ≡ out.old.items
        ++ all_octets (products.end_numbers section1.now product.now.unit)) }
{
    let Some(end) = product.end else {
        return Ok(());
    };
    add_interval(section1, product, &end, out)
}

/// Adds these octets, with the end of the interval.
fn add_interval(
    section1: &[u8],
    product: &Product,
    end: &Moment,
    out: &mut Vec<u8>,
) -> Result<(), AllocError>
    requires long { 28 ≤ length section1.now }
    requires end { end.now ≡ end_of section1.now product.now.unit.seconds }
    requires ordered { key_in section1.now P1 ≤ key_in section1.now P2 }
    ensures { OnOk result (out.new.items ≡ out.old.items
        ++ all_octets (products.interval_numbers section1.now product.now.unit)) }
{
    let unit = product.unit.code;
    let length = u8_at(section1, 20) - u8_at(section1, 19);
    add_numbers(
        &[
            Two(u32::from(end.year)),
            One(end.month),
            One(end.day),
            One(end.hour),
            One(end.minute),
            One(end.second),
            One(1),
            Four(u32::from(u8_at(section1, 24))),
            One(statistic(u8_at(section1, 21))),
            One(2),
            One(unit),
            Four(u32::from(length)),
            One(unit),
            Four(0),
        ],
        out,
    )
}

/// Adds the vertical coordinates as binary32 words.
fn add_coordinates(coordinates: &[u32], out: &mut Vec<u8>) -> Result<(), MigrateFault>
    requires { length coordinates.now ≤ 255 }
    ensures { MatchResult result
        (λ _. (coordinate_loss coordinates.now ≡ None) × (out.new.items
        ≡ out.old.items ++ all_octets (products.coordinate_numbers coordinates.now)))
        (IsMigrateFault (coordinate_loss coordinates.now)) }
{
    let mut place: u32 = 0;
    for word in coordinates {
        place += 1;
        let Some(new) = binary32_of(*word) else {
            return Err(MigrateFault::Lost(Loss::Coordinate(place)));
        };
        add_numbers(&[Four(new)], out)?;
    }
    Ok(())
}
