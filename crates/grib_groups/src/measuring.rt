//! The references and widths of groups.

ghost use Rattle.std.specs.Prelude.{◌≡◌, ◌≤◌, ◌∷◌, [], drop, length, vec_len, All, IfOk};
ghost use Rattle.grib_packing.specs.Groupings.{IsGrouping, runs};
ghost use Rattle.grib_codes.specs.Span.{IsBelow};
ghost use Rattle.grib_groups.specs.Encoding.{AreMeasures, IsMeasure};

use grib_codes::Codes;
use std::alloc::{AllocError, Global};

/// What the codes of a group come to.
#[derive(Clone, Copy, Debug, PartialEq, Eq)]
pub struct Measure {
    /// The reference, which is taken off each number.
    pub reference: u32,
    /// The width of each packed number in bits.
    pub width: u8,
}

impl Measure {
    /// The measure of a group with these codes, where `reserved` codes are kept for missing points and a
    /// reference has `bits` bits.
    pub fn of(run: &Codes<'_>, reserved: u32, bits: u32) -> Measure
        requires reserved { reserved ≤ 2 }
        requires few { bits ≤ 32 }
        requires codes { All (IsBelow reserved) run.now }
        ensures is { IsMeasure reserved bits result run.now }
        ensures narrow { result.width ≤ 32 }
    {
        let span = run.span();
        Measure {
            reference: span.reference(bits) as u32,
            width: span.width(reserved) as u8,
        }
    }
}

/// The measures of the groups of these lengths.
///
/// # Errors
///
/// There is no memory for them.
pub fn measures_of(
    alloc: Global,
    codes: &Codes<'_>,
    lengths: &[u32],
    reserved: u32,
    bits: u32,
) -> Result<Vec<Measure>, AllocError>
    requires reserved { reserved ≤ 2 }
    requires few { bits ≤ 32 }
    requires grouping { IsGrouping (length codes.now) lengths.now }
    requires codes { All (IsBelow reserved) codes.now }
    ensures are { IfOk result (λ measures. AreMeasures reserved bits measures.items (runs lengths.now codes.now)) }
    ensures count { IfOk result (λ measures. length measures.items ≡ length lengths.now) }
{
    let mut measures = Vec::with_capacity(alloc, lengths.len())?;
    let mut rest = codes.all();
    for length in lengths {
        let (run, after) = rest.split_at(*length as usize);
        measures.push(Measure::of(&run, reserved, bits))?;
        rest = after;
    }
    Ok(measures)
}

/// The measure of the next group: the first of those that are known, if there is one.
pub fn next_measure(known: &[Measure], run: &Codes<'_>, reserved: u32, bits: u32) -> Measure
    requires reserved { reserved ≤ 2 }
    requires few { bits ≤ 32 }
    requires codes { All (IsBelow reserved) run.now }
    requires known { AreMeasures reserved bits known.now (run.now ∷ []) }
    ensures { IsMeasure reserved bits result run.now }
{
    match known.first() {
        Some(measure) => *measure,
        None => Measure::of(run, reserved, bits),
    }
}

/// The measures that are known of the groups after the next one.
pub fn later_measures(known: &[Measure]) -> &[Measure]
    ensures { result.now ≡ drop 1 known.now }
{
    match known.split_first() {
        Some((_, rest)) => rest,
        None => known,
    }
}
