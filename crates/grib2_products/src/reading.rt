//! Reading Section 4.

ghost use Rattle.std.specs.Prelude.{◌≡◌, ◌≢◌, ◌+◌, ◌*◌, ◌≤◌, length, Some, None, Err, MatchResult, IfOk, IsOk};
ghost use Rattle.grib_bits.specs.Octets.{octets as octets_of};
ghost use Rattle.grib_base.specs.Rules.{first_fault_at};
ghost use Rattle.grib2_products.specs.Product.{product_rules, coordinate_count, time_ranges};
ghost use Rattle.grib2_products.specs.Whole.{IsWhole};
ghost use Rattle.grib_base.specs.Faults.{IsReadFault};
ghost use Rattle.grib2_products.specs.Spelled.{Spelled, SpelledTemplate, template_of, SpelledInstant, SpelledEnsemble, SpelledInterval};

use crate::lists::{read_coordinates, read_specs};
use crate::rules::check_product;
use crate::{Ensemble, Instant, Interval, Product, ProductSection};
use grib_base::{List, ReadFault, Section};
use grib_bits::{u8_at, u16_at, u32_at};
use std::alloc::{AllocError, Global};

/// Reads Section 4. How many there are in a message is for the reader of the message to see.
///
/// # Errors
///
/// The first rule of the profile that fails, as `check_product` tells it. Or there is no memory for the
/// time ranges or the coordinate values, where there are any.
pub fn read_product(alloc: Global, section: &Section<'_>) -> Result<ProductSection, ReadFault>
    ensures rules { MatchResult result
        (λ value. (first_fault_at section.now.start (product_rules section.now.octets.now 1) ≡ None)
        × Spelled value section.now.octets.now)
        (IsReadFault (first_fault_at section.now.start (product_rules section.now.octets.now 1))) }
    ensures memory { time_ranges section.now.octets.now ≡ 0
        → coordinate_count section.now.octets.now ≡ 0 → result ≢ Err ReadFault.Memory }
{
    check_product(section)?;
    Ok(product_of(alloc, section.octets)?)
}

/// What a Section 4 says that no rule of the profile refuses.
///
/// # Errors
///
/// There is no memory for the time ranges or the coordinate values, where there are any.
pub fn product_of(alloc: Global, octets: &[u8]) -> Result<ProductSection, AllocError>
    requires { IsWhole octets.now }
    ensures numbers { IfOk result (λ value. Spelled value octets.now) }
    ensures memory { time_ranges octets.now ≡ 0 → coordinate_count octets.now ≡ 0 → IsOk result }
{
    let coordinates = read_coordinates(alloc, octets)?;
    let product = read_template(alloc, octets)?;
    Ok(ProductSection {
        coordinates: List::of(coordinates),
        product,
    })
}

/// The template, by its number in octets 8-9.
fn read_template(alloc: Global, octets: &[u8]) -> Result<Product, AllocError>
    requires { IsWhole octets.now }
    ensures template { IfOk result (λ product. template_of product ≡ octets_of octets.now 8 9) }
    ensures octets { IfOk result (λ product. SpelledTemplate product octets.now) }
    ensures memory { time_ranges octets.now ≡ 0 → IsOk result }
{
    let instant = read_instant(octets);
    match u16_at(octets, 8) {
        0 => Ok(Product::Instant(instant)),
        1 => Ok(Product::Ensemble(instant, read_ensemble(octets))),
        8 => Ok(Product::Interval(instant, read_interval(alloc, octets, 35)?)),
        11 => {
            let interval = read_interval(alloc, octets, 38)?;
            Ok(Product::EnsembleInterval(instant, read_ensemble(octets), interval))
        }
        _ => unreachable!(),
    }
}

/// What all four templates share.
fn read_instant(octets: &[u8]) -> Instant
    requires { 34 ≤ length octets.now }
    ensures { SpelledInstant result octets.now }
{
    Instant {
        category: u8_at(octets, 10),
        number: u8_at(octets, 11),
        process: u8_at(octets, 12),
        background: u8_at(octets, 13),
        generator: u8_at(octets, 14),
        cutoff_hours: u16_at(octets, 15),
        cutoff_minutes: u8_at(octets, 17),
        unit: u8_at(octets, 18),
        time: u32_at(octets, 19),
        surface1: u8_at(octets, 23),
        scale1: u8_at(octets, 24),
        value1: u32_at(octets, 25),
        surface2: u8_at(octets, 29),
        scale2: u8_at(octets, 30),
        value2: u32_at(octets, 31),
    }
}

/// What templates 4.1 and 4.11 have of an ensemble.
fn read_ensemble(octets: &[u8]) -> Ensemble
    requires { 37 ≤ length octets.now }
    ensures { SpelledEnsemble result octets.now }
{
    Ensemble {
        kind: u8_at(octets, 35),
        perturbation: u8_at(octets, 36),
        size: u8_at(octets, 37),
    }
}

/// The interval that begins at octet `first`.
fn read_interval(alloc: Global, octets: &[u8], first: usize) -> Result<Interval, AllocError>
    requires counted { 1 ≤ first }
    requires fixed { first + 11 ≤ length octets.now }
    requires within { first + 11 + 12 * octets_of octets.now (first + 7) (first + 7)
        ≤ length octets.now }
    ensures octets { IfOk result (λ interval. SpelledInterval interval first octets.now) }
    ensures memory { octets_of octets.now (first + 7) (first + 7) ≡ 0 → IsOk result }
{
    let n = u8_at(octets, first + 7);
    let specs = read_specs(alloc, octets, first + 12, n)?;
    Ok(Interval {
        year: u16_at(octets, first),
        month: u8_at(octets, first + 2),
        day: u8_at(octets, first + 3),
        hour: u8_at(octets, first + 4),
        minute: u8_at(octets, first + 5),
        second: u8_at(octets, first + 6),
        n,
        missing: u32_at(octets, first + 8),
        specs: List::of(specs),
    })
}
