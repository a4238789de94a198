//! Writing Section 4.

ghost use Rattle.std.specs.Prelude.{◌≡◌, ℕ, ◌+◌, ◌*◌, ◌%◌, ◌^◌, ◌<◌, ◌≤◌, List, ◌++◌, length, slice_index};
ghost use Rattle.grib_bits.specs.Encoding.{AddsOctets};
ghost use Rattle.grib_bits.specs.Listed.{numbers_octets};
ghost use Rattle.grib2_sections.specs.Template.{least_length};
ghost use Rattle.grib2_products.specs.declared.templates.Instant.{Instant};
ghost use Rattle.grib2_products.specs.declared.templates.Ensemble.{Ensemble};
ghost use Rattle.grib2_products.specs.Product.{product_templates};
ghost use Rattle.grib2_products.specs.Spelled.{IsSectionOf, written_length, template_of, range_count, specs_at, SpelledInstant, SpelledEnsemble, SpelledInterval};
ghost use Rattle.grib2_products.specs.Writable.{CountsRanges, IsWritable};
ghost use Rattle.grib2_products.specs.Written.{header, SpelledHeader, section_of_product, template_octets, WritesTemplate, instant_octets, ensemble_octets, end_octets, SpecFits, spec_octets, specs_octets};

use crate::{Ensemble, Instant, Interval, Product, ProductSection, Spec};
use grib_bits::{BitWriter, write_list, write_u8, write_u16, write_u32};

/// Writes Section 4 without surplus. Reading the octets gives the value again. What `read_product` answers
/// can be written, and so can each other value whose time ranges and coordinate values are counted. The
/// writer has the memory already.
pub fn write_product(value: &ProductSection, out: &mut BitWriter)
    requires whole { length out.old.bits % 8 ≡ 0 }
    requires writable { IsWritable value.now }
    requires room { 8 * written_length value.now ≤ out.old.spare }
    ensures section { IsSectionOf value.now (section_of_product value.now) }
    ensures length { length (section_of_product value.now) ≡ written_length value.now }
    ensures octets { AddsOctets out.old out.new (section_of_product value.now) }
    ensures whole { length out.new.bits % 8 ≡ 0 }
{
    let coordinates = value.coordinates.as_slice();
    let count = coordinates.len() as u16;
    let length = template_length(&value.product) + 4 * u32::from(count);
    write_header(length, count, template_number(&value.product), out);
    write_template(&value.product, out);
    write_coordinates(coordinates, out);
}

/// The length of a section with this template and no coordinate values, in octets.
fn template_length(product: &Product) -> u32
    ensures length { result
        ≡ least_length product_templates (template_of product.now) + 12 * range_count product.now }
    ensures short { result ≤ 3109 }
{
    match product {
        Product::Instant(_) => 34,
        Product::Ensemble(_, _) => 37,
        Product::Interval(_, interval) => 46 + 12 * u32::from(interval.n),
        Product::EnsembleInterval(_, _, interval) => 49 + 12 * u32::from(interval.n),
    }
}

/// The number of the template.
fn template_number(product: &Product) -> u16
    ensures { result ≡ template_of product.now }
{
    match product {
        Product::Instant(_) => 0,
        Product::Ensemble(_, _) => 1,
        Product::Interval(_, _) => 8,
        Product::EnsembleInterval(_, _, _) => 11,
    }
}

/// Octets 1 to 9, of a section of `length` octets.
fn write_header(length: u32, count: u16, template: u16, out: &mut BitWriter)
    requires { 72 ≤ out.old.spare }
    ensures octets { AddsOctets out.old out.new (header length count template) }
    ensures spelled { (rest : List ℕ)
        → SpelledHeader length count template (header length count template ++ rest) }
{
    write_u32(length, out);
    write_u8(4, out);
    write_u16(count, out);
    write_u16(template, out);
}

/// The template, from octet 10 on.
fn write_template(value: &Product, out: &mut BitWriter)
    requires counted { CountsRanges value.now }
    requires room { 8 * length (template_octets value.now) ≤ out.old.spare }
    ensures { WritesTemplate out.old out.new value.now }
{
    match value {
        Product::Instant(instant) => write_instant(instant, out),
        Product::Ensemble(instant, ensemble) => {
            write_instant(instant, out);
            write_ensemble(ensemble, out);
        }
        Product::Interval(instant, interval) => {
            write_instant(instant, out);
            write_interval(interval, out);
        }
        Product::EnsembleInterval(instant, ensemble, interval) => {
            write_instant(instant, out);
            write_ensemble(ensemble, out);
            write_interval(interval, out);
        }
    }
}

/// What all four templates share: octets 10 to 34.
fn write_instant(value: &Instant, out: &mut BitWriter)
    requires { 200 ≤ out.old.spare }
    ensures octets { AddsOctets out.old out.new (instant_octets value.now) }
    ensures spelled { (l count template : ℕ) (rest : List ℕ) → SpelledInstant value.now
        (header l count template ++ instant_octets value.now ++ rest) }
{
    write_u8(value.category, out);
    write_u8(value.number, out);
    write_u8(value.process, out);
    write_u8(value.background, out);
    write_u8(value.generator, out);
    write_u16(value.cutoff_hours, out);
    write_u8(value.cutoff_minutes, out);
    write_u8(value.unit, out);
    write_u32(value.time, out);
    write_u8(value.surface1, out);
    write_u8(value.scale1, out);
    write_u32(value.value1, out);
    write_u8(value.surface2, out);
    write_u8(value.scale2, out);
    write_u32(value.value2, out);
}

/// What templates 4.1 and 4.11 have of an ensemble: octets 35 to 37.
fn write_ensemble(value: &Ensemble, out: &mut BitWriter)
    requires { 24 ≤ out.old.spare }
    ensures octets { AddsOctets out.old out.new (ensemble_octets value.now) }
    ensures spelled { (l count template : ℕ) (v : Instant) (rest : List ℕ)
        → SpelledEnsemble value.now (header l count template ++ instant_octets v
        ++ ensemble_octets value.now ++ rest) }
{
    write_u8(value.kind, out);
    write_u8(value.perturbation, out);
    write_u8(value.size, out);
}

/// An interval, which begins at octet 35 in template 4.8 and at octet 38 in template 4.11.
fn write_interval(value: &Interval, out: &mut BitWriter)
    requires counted { length value.now.specs ≡ value.now.n }
    requires room { 96 + 8 * (12 * length value.now.specs) ≤ out.old.spare }
    ensures octets { AddsOctets out.old out.new
        (end_octets value.now ++ specs_octets value.now.specs) }
    ensures at_35 { (l count template : ℕ) (v : Instant) (rest : List ℕ)
        → SpelledInterval value.now 35 (header l count template ++ instant_octets v
        ++ (end_octets value.now ++ specs_octets value.now.specs) ++ rest) }
    ensures at_38 { (l count template : ℕ) (v : Instant) (e : Ensemble) (rest : List ℕ)
        → SpelledInterval value.now 38 (header l count template ++ instant_octets v
        ++ ensemble_octets e ++ (end_octets value.now ++ specs_octets value.now.specs) ++ rest) }
{
    write_u16(value.year, out);
    write_u8(value.month, out);
    write_u8(value.day, out);
    write_u8(value.hour, out);
    write_u8(value.minute, out);
    write_u8(value.second, out);
    write_u8(value.n, out);
    write_u32(value.missing, out);
    write_specs(value.specs.as_slice(), out);
}

/// The time ranges, of 12 octets each.
fn write_specs(specs: &[Spec], out: &mut BitWriter)
    requires { 8 * (12 * length specs.now) ≤ out.old.spare }
    ensures octets { AddsOctets out.old out.new (specs_octets specs.now) }
    ensures again { (front rest : List ℕ) (first : ℕ) → first ≡ length front + 1
        → specs.now ≡ specs_at (front ++ (specs_octets specs.now ++ rest)) first (length specs.now) }
{
    for spec in specs {
        write_spec(spec, out);
    }
}

/// A time range.
fn write_spec(value: &Spec, out: &mut BitWriter)
    requires { 96 ≤ out.old.spare }
    ensures octets { AddsOctets out.old out.new (spec_octets value.now) }
    ensures fits { SpecFits value.now }
{
    write_u8(value.process, out);
    write_u8(value.increment_type, out);
    write_u8(value.unit, out);
    write_u32(value.length, out);
    write_u8(value.increment_unit, out);
    write_u32(value.increment, out);
}

/// The coordinate values, of four octets each.
fn write_coordinates(words: &[u32], out: &mut BitWriter)
    requires { 8 * (4 * length words.now) ≤ out.old.spare }
    ensures octets { AddsOctets out.old out.new (numbers_octets 4 words.now) }
    ensures fit { (k : ℕ) → k < length words.now → slice_index words.now k < 256 ^ 4 }
{
    write_list(words, 4, out);
}
