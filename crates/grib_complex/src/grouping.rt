//! How the codes of a column are laid out in groups.

ghost use Rattle.std.specs.Prelude.{◌≡◌, ℕ, ◌+◌, ◌*◌, ◌/◌, ◌<◌, ◌≤◌, length, map, replicate, All, IfOk};
ghost use Rattle.grib_packing.specs.Groupings.{Chosen, IsGrouping, header_bits, joined, reference_bits_of, runs, width_bits_of, width_of};
ghost use Rattle.grib_packing.specs.Packed.{group_fields, group_parts};
ghost use Rattle.grib_codes.specs.Span.{IsTold, IsBelow};
ghost use Rattle.grib_groups.specs.Encoding.{AreMeasures, LaysOut};
ghost use Rattle.grib_split.specs.Costs.{CanSplit};
ghost use Rattle.grib_codes.specs.FieldCodes.{codes_in};

use grib_base::Code;
use grib_codes::{Codes, FieldCodes, Span, Words};
use grib_groups::{Measure, later_measures, measures_of, next_measure};
use grib_packing::{Layout, bit_length};
use grib_split::{Costs, chosen_lengths, fewest_lengths};
use std::alloc::{AllocError, Global};

/// The lengths of groups and what Section 5 says of them.
#[derive(Debug, Drop)]
pub struct Grouping {
    pub lengths: Vec<u32>,
    /// The reference and the width of each group, none where all codes are the same.
    pub measures: Vec<Measure>,
    pub layout: Layout,
}

/// The groups of these codes that take the fewest bits, where the management reserves as many codes as it
/// says.
///
/// # Errors
///
/// There is no memory for the lengths.
pub fn grouping_of(
    alloc: Global,
    codes: &FieldCodes,
    management: u8,
) -> Result<Grouping, AllocError>
    requires some { 1 ≤ length (codes_in codes.now) }
    requires most { length (codes_in codes.now) ≤ 33554432 }
    requires few { management ≤ 2 }
    requires codes { All (IsTold management) (codes_in codes.now) }
    ensures lays_out { IfOk result (λ grouping. LaysOut grouping.layout (codes_in codes.now) grouping.lengths.items) }
    ensures known { IfOk result (λ grouping. AreMeasures grouping.layout.management grouping.layout.reference_bits
        grouping.measures.items (runs grouping.lengths.items (codes_in codes.now))) }
    ensures management { IfOk result (λ grouping. grouping.layout.management ≡ management) }
    ensures chosen { IfOk result (λ grouping.
        Chosen (header_bits management (codes_in codes.now)) (width_of management) (codes_in codes.now) grouping.lengths.items) }
{
    match codes {
        FieldCodes::Each(words) => grouping_of_each(alloc, &words.codes(), management),
        FieldCodes::Same(code, count) => grouping_of_same(alloc, *code, *count, management),
    }
}

/// The groups of codes one after another.
///
/// # Errors
///
/// There is no memory for the lengths.
fn grouping_of_each(
    alloc: Global,
    codes: &Codes<'_>,
    management: u8,
) -> Result<Grouping, AllocError>
    requires some { 1 ≤ length codes.now }
    requires most { length codes.now ≤ 33554432 }
    requires few { management ≤ 2 }
    requires codes { All (IsTold management) codes.now }
    ensures lays_out { IfOk result (λ grouping. LaysOut grouping.layout codes.now grouping.lengths.items) }
    ensures known { IfOk result (λ grouping. AreMeasures grouping.layout.management grouping.layout.reference_bits
        grouping.measures.items (runs grouping.lengths.items codes.now)) }
    ensures management { IfOk result (λ grouping. grouping.layout.management ≡ management) }
    ensures chosen { IfOk result (λ grouping.
        Chosen (header_bits management codes.now) (width_of management) codes.now grouping.lengths.items) }
{
    let costs = costs_of(codes, management);
    let lengths = chosen_lengths(alloc, codes, &costs)?;
    let measures = measures_of(alloc, codes, &lengths, costs.reserved, costs.reference_bits)?;
    let layout = Layout {
        groups: lengths.len() as u32,
        reference_bits: costs.reference_bits as u8,
        width_reference: 0,
        width_bits: costs.width_bits as u8,
        length_reference: 1,
        length_increment: 1,
        last_length: lengths[lengths.len() - 1],
        length_bits: 6,
        management,
    };
    Ok(Grouping {
        lengths,
        measures,
        layout,
    })
}

/// What the cost of a grouping of these codes rests on.
pub fn costs_of(codes: &Codes<'_>, management: u8) -> Costs
    requires some { 1 ≤ length codes.now }
    requires most { length codes.now ≤ 33554432 }
    requires few { management ≤ 2 }
    requires codes { All (IsTold management) codes.now }
    ensures split { CanSplit result codes.now }
    ensures reserved { result.reserved ≡ management }
    ensures references { result.reference_bits ≡ reference_bits_of management codes.now }
    ensures widths { result.width_bits ≡ width_bits_of management codes.now }
{
    let reserved = u32::from(management);
    let span = codes.span();
    Costs {
        reserved,
        reference_bits: span.reference_bits(reserved),
        width_bits: bit_length(u64::from(span.width(reserved))),
    }
}

/// The groups of this many codes that are all the same: none takes a bit beside its header, so they are the
/// fewest.
///
/// # Errors
///
/// There is no memory for the lengths.
fn grouping_of_same(
    alloc: Global,
    code: Code,
    count: u32,
    management: u8,
) -> Result<Grouping, AllocError>
    requires some { 1 ≤ count }
    requires most { count ≤ 33554432 }
    requires few { management ≤ 2 }
    requires code { IsTold management code }
    ensures lays_out { IfOk result (λ grouping. LaysOut grouping.layout (replicate count code) grouping.lengths.items) }
    ensures known { IfOk result (λ grouping. AreMeasures grouping.layout.management grouping.layout.reference_bits
        grouping.measures.items (runs grouping.lengths.items (replicate count code))) }
    ensures management { IfOk result (λ grouping. grouping.layout.management ≡ management) }
    ensures chosen { IfOk result (λ grouping.
        Chosen (header_bits management (replicate count code)) (width_of management) (replicate count code) grouping.lengths.items) }
{
    let span = Span::of(&[code]);
    let lengths = fewest_lengths(alloc, count)?;
    let layout = Layout {
        groups: lengths.len() as u32,
        reference_bits: span.reference_bits(u32::from(management)) as u8,
        width_reference: 0,
        width_bits: 0,
        length_reference: 1,
        length_increment: 1,
        last_length: lengths[lengths.len() - 1],
        length_bits: 6,
        management,
    };
    Ok(Grouping {
        lengths,
        measures: Vec::new(alloc),
        layout,
    })
}

/// The octets that the groups of these codes take in Section 7.
pub fn octets_of_groups(
    codes: &FieldCodes,
    lengths: &[u32],
    known: &[Measure],
    layout: &Layout,
) -> u32
    requires lays_out { LaysOut layout.now (codes_in codes.now) lengths.now }
    requires known { AreMeasures layout.now.management layout.now.reference_bits known.now (runs lengths.now (codes_in codes.now)) }
    requires most { length (codes_in codes.now) ≤ 33554432 }
    ensures is { 8 * result ≡ length (group_parts layout.now.management (codes_in codes.now) lengths.now) }
    ensures few { result ≤ 1000000000 }
{
    let reserved = u32::from(layout.management);
    let reference_bits = u32::from(layout.reference_bits);
    let bits = bits_of_groups(codes, lengths, known, reserved, reference_bits);
    let references = octets_for(layout.groups, layout.reference_bits);
    let widths = octets_for(layout.groups, layout.width_bits);
    references + widths + octets_for(layout.groups, 6) + bits.div_ceil(8)
}

/// The octets of this many numbers of this many bits.
#[inline]
fn octets_for(count: u32, bits: u8) -> u32
    requires count { count ≤ 33554432 }
    requires bits { bits ≤ 32 }
    ensures is { result ≡ (count * bits + 7) / 8 }
    ensures few { result ≤ 4 * count + 1 }
{
    (count * u32::from(bits)).div_ceil(8)
}

/// The bits that the packed numbers of all groups take.
fn bits_of_groups(
    codes: &FieldCodes,
    lengths: &[u32],
    known: &[Measure],
    reserved: u32,
    reference_bits: u32,
) -> u32
    requires reserved { reserved ≤ 2 }
    requires references { reference_bits ≤ 32 }
    requires grouping { IsGrouping (length (codes_in codes.now)) lengths.now }
    requires codes { All (IsBelow reserved) (codes_in codes.now) }
    requires known { AreMeasures reserved reference_bits known.now (runs lengths.now (codes_in codes.now)) }
    requires most { length (codes_in codes.now) ≤ 33554432 }
    ensures is { (bits : ℕ) → result ≡ length (joined (map (group_fields reserved bits) (runs lengths.now (codes_in codes.now)))) }
    ensures few { result ≤ 32 * length (codes_in codes.now) }
{
    match codes {
        FieldCodes::Each(words) => bits_of_each(words, lengths, known, reserved, reference_bits),
        FieldCodes::Same(_code, _count) => 0,
    }
}

/// The grouping of codes that are looked at one after another.
fn bits_of_each(
    codes: &Words,
    lengths: &[u32],
    known: &[Measure],
    reserved: u32,
    reference_bits: u32,
) -> u32
    requires reserved { reserved ≤ 2 }
    requires references { reference_bits ≤ 32 }
    requires grouping { IsGrouping (length codes.now) lengths.now }
    requires codes { All (IsBelow reserved) codes.now }
    requires known { AreMeasures reserved reference_bits known.now (runs lengths.now codes.now) }
    requires most { length codes.now ≤ 33554432 }
    ensures is { (bits : ℕ) → result ≡ length (joined (map (group_fields reserved bits) (runs lengths.now codes.now))) }
    ensures few { result ≤ 32 * length codes.now }
{
    let mut rest = codes.codes();
    let mut told = known;
    let mut bits = 0;
    for length in lengths {
        let (run, after) = rest.split_at(*length as usize);
        let measure = next_measure(told, &run, reserved, reference_bits);
        bits += *length * u32::from(measure.width);
        rest = after;
        told = later_measures(told);
    }
    bits
}
