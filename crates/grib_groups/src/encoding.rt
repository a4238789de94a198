//! Groups written.

ghost use Rattle.std.specs.Prelude.{◌≡◌, ◌+◌, ◌-◌, ◌*◌, ◌%◌, ◌^◌, ◌<◌, ◌≤◌, length, take, drop, get_or, map, replicate, All};
ghost use Rattle.std.specs.List.{list_all};
ghost use Rattle.grib_bits.specs.Bits.{bits_of};
ghost use Rattle.grib_base.specs.declared.code.Code.TheVariants.{Primary};
ghost use Rattle.grib_packing.specs.Groupings.{is_present, joined, length_bits, runs, width_of};
ghost use Rattle.grib_packing.specs.Packed.{fields, group_fields, group_parts, packed_number, padded, reference_of};
ghost use Rattle.grib_codes.specs.Span.{IsTold};
ghost use Rattle.grib_groups.specs.Encoding.{AddsBits, AreGrouped, AreMeasures, AreNumbers, IsNumber, IsPackable, LaysOut, measured_fields, packed_fields};

use crate::Layout;
use crate::measuring::{Measure, later_measures, next_measure};
use grib_base::Code;
use grib_bits::BitWriter;
use grib_codes::{Codes, Span, is_number};

/// Writes codes as groups of these lengths: the references, the widths, the lengths less 1 in 6 bits each
/// and the packed numbers, each of the four padded with zero bits to a whole octet (WMO-No. 306, Volume
/// I.2, FM 92 GRIB edition 2, data template 7.2). The layout tells the bits of a reference and of a width
/// and how many codes are reserved for missing points. It takes no memory.
pub fn encode_groups(codes: &Codes<'_>, lengths: &[u32], layout: &Layout, out: &mut BitWriter)
    requires lays_out { LaysOut layout.now codes.now lengths.now }
    requires most { length codes.now ≤ 33554432 }
    requires whole { length out.old.bits % 8 ≡ 0 }
    requires room { length (group_parts layout.now.management codes.now lengths.now) ≤ out.old.spare }
    ensures { AddsBits out.old out.new (group_parts layout.now.management codes.now lengths.now) }
{
    encode_measured_groups(codes, lengths, &[], layout, out);
}

/// Writes codes as groups as [`encode_groups`] does, where the references and widths of the first groups are
/// known: the codes of these groups are read once, and those of the others three times.
pub fn encode_measured_groups(
    codes: &Codes<'_>,
    lengths: &[u32],
    known: &[Measure],
    layout: &Layout,
    out: &mut BitWriter,
)
    requires lays_out { LaysOut layout.now codes.now lengths.now }
    requires most { length codes.now ≤ 33554432 }
    requires known { AreMeasures layout.now.management layout.now.reference_bits known.now (runs lengths.now codes.now) }
    requires whole { length out.old.bits % 8 ≡ 0 }
    requires room { length (group_parts layout.now.management codes.now lengths.now) ≤ out.old.spare }
    ensures { AddsBits out.old out.new (group_parts layout.now.management codes.now lengths.now) }
{
    let reserved = u32::from(layout.management);
    let bits = u32::from(layout.reference_bits);
    let width_bits = u32::from(layout.width_bits);
    put_references(codes, lengths, known, reserved, bits, out);
    put_widths(codes, lengths, known, reserved, bits, width_bits, out);
    put_lengths(lengths, out);
    put_numbers(codes, lengths, known, reserved, bits, out);
}

/// Writes `count` codes that are all the same as groups of these lengths, as [`encode_groups`] does. Such
/// groups have one reference, and no packed numbers.
pub fn encode_same(code: Code, count: u32, lengths: &[u32], layout: &Layout, out: &mut BitWriter)
    requires lays_out { LaysOut layout.now (replicate count code) lengths.now }
    requires some { 1 ≤ count }
    requires whole { length out.old.bits % 8 ≡ 0 }
    requires room { length (group_parts layout.now.management (replicate count code) lengths.now) ≤ out.old.spare }
    ensures { AddsBits out.old out.new (group_parts layout.now.management (replicate count code) lengths.now) }
{
    let bits = u32::from(layout.reference_bits);
    put_same(Span::of(&[code]).reference(bits), bits, lengths, out);
    put_lengths(lengths, out);
}

/// Writes the same reference for each group.
fn put_same(reference: u64, bits: u32, lengths: &[u32], out: &mut BitWriter)
    requires few { bits ≤ 32 }
    requires fits { reference < 2 ^ bits }
    requires whole { length out.old.bits % 8 ≡ 0 }
    requires room { length (padded (fields bits (map (λ l. reference) lengths.now))) ≤ out.old.spare }
    ensures { AddsBits out.old out.new (padded (fields bits (map (λ l. reference) lengths.now))) }
{
    for _length in lengths {
        out.put(reference, bits);
    }
    out.align();
}

/// Writes the reference of each group.
fn put_references(
    codes: &Codes<'_>,
    lengths: &[u32],
    known: &[Measure],
    reserved: u32,
    bits: u32,
    out: &mut BitWriter,
)
    requires grouped { AreGrouped reserved bits codes.now lengths.now known.now }
    requires fits { All (λ run. reference_of bits run < 2 ^ bits) (runs lengths.now codes.now) }
    requires whole { length out.old.bits % 8 ≡ 0 }
    requires room { length (padded (fields bits (map (reference_of bits) (runs lengths.now codes.now)))) ≤ out.old.spare }
    ensures { AddsBits out.old out.new (padded (fields bits (map (reference_of bits) (runs lengths.now codes.now)))) }
{
    let mut rest = codes.all();
    let mut told = known;
    for length in lengths {
        let (run, after) = rest.split_at(*length as usize);
        let measure = next_measure(told, &run, reserved, bits);
        out.put(u64::from(measure.reference), bits);
        rest = after;
        told = later_measures(told);
    }
    out.align();
}

/// Writes the width of each group in `bits` bits.
fn put_widths(
    codes: &Codes<'_>,
    lengths: &[u32],
    known: &[Measure],
    reserved: u32,
    reference_bits: u32,
    bits: u32,
    out: &mut BitWriter,
)
    requires few { bits ≤ 64 }
    requires grouped { AreGrouped reserved reference_bits codes.now lengths.now known.now }
    requires fits { All (λ run. width_of reserved run < 2 ^ bits) (runs lengths.now codes.now) }
    requires whole { length out.old.bits % 8 ≡ 0 }
    requires room { length (padded (fields bits (map (width_of reserved) (runs lengths.now codes.now)))) ≤ out.old.spare }
    ensures { AddsBits out.old out.new (padded (fields bits (map (width_of reserved) (runs lengths.now codes.now)))) }
{
    let mut rest = codes.all();
    let mut told = known;
    for length in lengths {
        let (run, after) = rest.split_at(*length as usize);
        let measure = next_measure(told, &run, reserved, reference_bits);
        out.put(u64::from(measure.width), bits);
        rest = after;
        told = later_measures(told);
    }
    out.align();
}

/// Writes the length of each group less 1.
fn put_lengths(lengths: &[u32], out: &mut BitWriter)
    requires each { All (λ l. (1 ≤ l) × (l ≤ 64)) lengths.now }
    requires whole { length out.old.bits % 8 ≡ 0 }
    requires room { length (padded (fields length_bits (map (λ l. l - 1) lengths.now))) ≤ out.old.spare }
    ensures { AddsBits out.old out.new (padded (fields length_bits (map (λ l. l - 1) lengths.now))) }
{
    for length in lengths {
        out.put(u64::from(*length) - 1, 6);
    }
    out.align();
}

/// Writes the packed numbers of all groups.
fn put_numbers(
    codes: &Codes<'_>,
    lengths: &[u32],
    known: &[Measure],
    reserved: u32,
    bits: u32,
    out: &mut BitWriter,
)
    requires grouped { AreGrouped reserved bits codes.now lengths.now known.now }
    requires whole { length out.old.bits % 8 ≡ 0 }
    requires room { length (padded (joined (map (group_fields reserved bits) (runs lengths.now codes.now)))) ≤ out.old.spare }
    ensures { AddsBits out.old out.new (padded (joined (map (group_fields reserved bits) (runs lengths.now codes.now)))) }
{
    let mut rest = codes.all();
    let mut told = known;
    for length in lengths {
        let (run, after) = rest.split_at(*length as usize);
        let measure = next_measure(told, &run, reserved, bits);
        put_group(&run, measure, reserved, out);
        rest = after;
        told = later_measures(told);
    }
    out.align();
}

/// Writes the packed numbers of one group with this reference and width.
fn put_group(run: &Codes<'_>, measure: Measure, reserved: u32, out: &mut BitWriter)
    requires few { measure.width ≤ 32 }
    requires told { All (IsTold reserved) run.now }
    requires codes { 1 ≤ measure.width → All (IsPackable measure.width measure.reference) run.now }
    requires room { length (measured_fields measure run.now) ≤ out.old.spare }
    ensures { AddsBits out.old out.new (measured_fields measure run.now) }
{
    if measure.width == 0 {
        return;
    }
    let width = u32::from(measure.width);
    let reference = u64::from(measure.reference);
    if has_no_mark(run, reserved) {
        put_present(run, width, reference, out);
    } else {
        put_codes(run, width, reference, out);
    }
}

/// Whether all codes are numbers. Where no code is reserved for missing points they are not looked at.
fn has_no_mark(run: &Codes<'_>, reserved: u32) -> bool
    requires { All (IsTold reserved) run.now }
    ensures { result ≡ list_all is_present run.now }
{
    if reserved == 0 {
        return true;
    }
    for done in 0..run.len() {
        if !is_number(run.at(done)) {
            return false;
        }
    }
    true
}

/// Writes the packed numbers of a group of this width and reference that has no mark: several at once, and the
/// last up to three one by one.
fn put_present(run: &Codes<'_>, width: u32, reference: u64, out: &mut BitWriter)
    requires numbers { AreNumbers width reference run.now }
    requires room { length (packed_fields width reference run.now) ≤ out.old.spare }
    ensures { AddsBits out.old out.new (packed_fields width reference run.now) }
{
    let (fours, rest) = run.split_at(run.len() / 4 * 4);
    put_several(&fours, width, reference, out);
    put_each(&rest, width, reference, out);
}

/// Writes the packed numbers of a group that has no mark: four at once where they fit a word, else two, since
/// joining them takes fewer steps than writing each.
fn put_several(run: &Codes<'_>, width: u32, reference: u64, out: &mut BitWriter)
    requires numbers { AreNumbers width reference run.now }
    requires fours { length run.now % 4 ≡ 0 }
    requires room { length (packed_fields width reference run.now) ≤ out.old.spare }
    ensures { AddsBits out.old out.new (packed_fields width reference run.now) }
{
    let scale = 1 << width;
    if width > 16 {
        put_pairs(run, width, scale, reference, out);
    } else {
        put_fours(run, width, scale, reference, out);
    }
}

/// Writes the packed numbers of a group that has no mark four at once. The scale is 2 to the width.
// Not inlined: LLVM would turn products by the scale into shifts by a variable count, which take more steps.
#[inline(never)]
fn put_fours(run: &Codes<'_>, width: u32, scale: u64, reference: u64, out: &mut BitWriter)
    requires numbers { AreNumbers width reference run.now }
    requires fours { length run.now % 4 ≡ 0 }
    requires few { width ≤ 16 }
    requires scale { scale ≡ 2 ^ width }
    requires room { length (packed_fields width reference run.now) ≤ out.old.spare }
    ensures { AddsBits out.old out.new (packed_fields width reference run.now) }
{
    for done in 0..run.len() / 4 {
        let four = four_numbers(run, 4 * done, width, scale, reference);
        out.put(four, 4 * width);
    }
}

/// Writes the packed numbers of a group that has no mark two at once. The scale is 2 to the width.
// Not inlined, as `put_fours`.
#[inline(never)]
fn put_pairs(run: &Codes<'_>, width: u32, scale: u64, reference: u64, out: &mut BitWriter)
    requires numbers { AreNumbers width reference run.now }
    requires pairs { length run.now % 2 ≡ 0 }
    requires scale { scale ≡ 2 ^ width }
    requires room { length (packed_fields width reference run.now) ≤ out.old.spare }
    ensures { AddsBits out.old out.new (packed_fields width reference run.now) }
{
    for done in 0..run.len() / 2 {
        let pair = two_numbers(run, 2 * done, width, scale, reference);
        out.put(pair, 2 * width);
    }
}

/// Writes the packed numbers of a group that has no mark one by one.
fn put_each(run: &Codes<'_>, width: u32, reference: u64, out: &mut BitWriter)
    requires numbers { AreNumbers width reference run.now }
    requires room { length (packed_fields width reference run.now) ≤ out.old.spare }
    ensures { AddsBits out.old out.new (packed_fields width reference run.now) }
{
    for done in 0..run.len() {
        out.put(number_at(run, done, width, reference), width);
    }
}

/// The packed numbers of four codes from this place on, as one number.
#[inline(always)]
fn four_numbers(run: &Codes<'_>, at: usize, width: u32, scale: u64, reference: u64) -> u64
    requires numbers { AreNumbers width reference run.now }
    requires few { width ≤ 16 }
    requires scale { scale ≡ 2 ^ width }
    requires within { at + 4 ≤ length run.now }
    requires place { at + 4 < 2 ^ 64 }
    ensures are { bits_of (4 * width) result ≡ packed_fields width reference (take 4 (drop at run.now)) }
    ensures fits { result < 2 ^ (4 * width) }
{
    let first = two_numbers(run, at, width, scale, reference);
    first * (scale * scale) + two_numbers(run, at + 2, width, scale, reference)
}

/// The packed numbers of two codes from this place on, as one number.
#[inline(always)]
fn two_numbers(run: &Codes<'_>, at: usize, width: u32, scale: u64, reference: u64) -> u64
    requires numbers { AreNumbers width reference run.now }
    requires scale { scale ≡ 2 ^ width }
    requires within { at + 2 ≤ length run.now }
    requires place { at + 2 < 2 ^ 64 }
    ensures are { bits_of (2 * width) result ≡ packed_fields width reference (take 2 (drop at run.now)) }
    ensures fits { result < 2 ^ (2 * width) }
{
    let first = number_at(run, at, width, reference);
    first * scale + number_at(run, at + 1, width, reference)
}

/// The packed number of a code that is no mark.
#[inline(always)]
fn number_at(run: &Codes<'_>, at: usize, width: u32, reference: u64) -> u64
    requires within { at < length run.now }
    requires codes { All (IsNumber width reference) run.now }
    ensures is { result ≡ packed_number width reference (get_or run.now at Primary) }
    ensures fits { result < 2 ^ width }
{
    match run.at(at) {
        Code::Present(number) => number - reference,
        Code::Primary | Code::Secondary => unreachable!(),
    }
}

/// Writes the packed numbers of a group of this width and reference that may have marks.
fn put_codes(run: &Codes<'_>, width: u32, reference: u64, out: &mut BitWriter)
    requires some { 1 ≤ width }
    requires few { width ≤ 32 }
    requires codes { All (IsPackable width reference) run.now }
    requires room { length (packed_fields width reference run.now) ≤ out.old.spare }
    ensures { AddsBits out.old out.new (packed_fields width reference run.now) }
{
    for done in 0..run.len() {
        out.put(packed(run.at(done), width, reference), width);
    }
}

/// The packed number of a code.
#[inline]
fn packed(code: Code, width: u32, reference: u64) -> u64
    requires some { 1 ≤ width }
    requires few { width ≤ 32 }
    requires code { IsPackable width reference code }
    ensures is { result ≡ packed_number width reference code }
    ensures fits { result < 2 ^ width }
{
    match code {
        Code::Present(number) => number - reference,
        Code::Primary => (1 << width) - 1,
        Code::Secondary => (1 << width) - 2,
    }
}
