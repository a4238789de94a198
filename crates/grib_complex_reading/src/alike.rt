//! Fields whose groups are all alike, as none of their lists has any bits: what becomes of them is known without a look
//! at each group.

ghost use Rattle.std.specs.Prelude.{◌≡◌, ◌⊎◌, ℕ, ◌+◌, ◌*◌, ◌^◌, ◌<◌, ◌≤◌, true, List, [], ◌∷◌, ◌++◌, nat_abs, replicate};
ghost use Rattle.grib_base.specs.Rules.{first_place};
ghost use Rattle.grib_group_reading.specs.Taking.{number_of};
ghost use Rattle.grib_packing.specs.Differences.{NoNumber};
ghost use Rattle.grib_packing.specs.Entries.{is_out_of_range};
ghost use Rattle.grib_packing.specs.Groups.{code_of, first_past as first_group_past};
ghost use Rattle.grib_complex_reading.specs.Alike.{AreAlike, Becomes, refusal_of_lists};
ghost use Rattle.grib_complex_reading.specs.Descriptors.{descriptors_in};
ghost use Rattle.grib_complex_reading.specs.Told.{After, told as points_of};

use crate::noted::Told;
use crate::representation::Complex;
use crate::telling::Teller;
use grib_base::{Code, Fault, Reason};
use grib_packing::Layout;

/// What becomes of a field of which no points are kept.
#[derive(Clone, Copy, Debug)]
pub(crate) enum Outcome {
    /// No rule of the profile fails.
    Passes,
    /// A rule of the profile fails.
    Refused(Fault),
    /// Its groups have to be looked at.
    Open,
}

/// What becomes of a field with groups, of which Section 5 and the extra descriptors say this, and which has a Section 7
/// of `length` octets that begins at octet `start` of the message.
pub(crate) fn outcome_of(complex: &Complex, told: &Told, start: u64, length: u32) -> Outcome
    requires low { 1 ≤ start }
    requires high { start ≤ 268435456 }
    requires order { complex.now.order ≤ 2 }
    requires extra { complex.now.extra ≤ 4 }
    requires groups { 1 ≤ complex.now.layout.groups }
    requires told { told.now.order ≤ 2 }
    requires first { nat_abs told.now.first ≤ 2 ^ 31 }
    requires second { nat_abs told.now.second ≤ 2 ^ 31 }
    requires minimum { nat_abs told.now.minimum ≤ 2 ^ 31 }
    ensures { Becomes complex.now told.now start length result }
{
    if !are_alike(&complex.layout) {
        return Outcome::Open;
    }
    if let Some(fault) = fault_of_alike(complex, start, length) {
        return Outcome::Refused(fault);
    }
    if told.order == 0 {
        return Outcome::Passes;
    }
    if complex.layout.width_reference > 0 {
        return Outcome::Open;
    }
    let place = place_of_same(told, code_of_alike(&complex.layout), complex.simple.values);
    if place > 0 {
        return Outcome::Refused(Fault::at(start, Reason::ScaledRange, place));
    }
    Outcome::Passes
}

/// Whether no list has any bits.
fn are_alike(layout: &Layout) -> bool
    ensures { result ≡ true → AreAlike layout.now }
{
    layout.reference_bits == 0
        && layout.width_bits == 0
        && layout.length_bits == 0
        && layout.width_reference <= 32
}

/// The refusal of the lists: lengths that do not add up to the values, then too few octets for the packed numbers.
fn fault_of_alike(complex: &Complex, start: u64, length: u32) -> Option<Fault>
    requires low { 1 ≤ start }
    requires high { start ≤ 268435456 }
    requires order { complex.now.order ≤ 2 }
    requires extra { complex.now.extra ≤ 4 }
    requires groups { 1 ≤ complex.now.layout.groups }
    requires alike { AreAlike complex.now.layout }
    ensures { (octets : List ℕ) → result ≡ refusal_of_lists complex.now start length octets }
{
    let layout = &complex.layout;
    let values = complex.simple.values;
    let before = layout.groups - 1;
    let sum = sum_of_lengths(before, layout.length_reference, layout.last_length);
    if sum != u64::from(values) {
        let group = first_past(values, layout.length_reference, before);
        return Some(Fault::at(start, Reason::GroupShape, group));
    }
    let bits = bits_of(values, layout.width_reference);
    if 8 * u64::from(length) < 8 * u64::from(5 + complex.skip()) + bits {
        return Some(Fault::at(start, Reason::DataTooShort, u64::from(length)));
    }
    None
}

/// The sum of the lengths, where `before` groups of one length stand before the last.
fn sum_of_lengths(before: u32, each: u32, last: u32) -> u64
    ensures { result ≡ before * each + last }
{
    u64::from(before) * u64::from(each) + u64::from(last)
}

/// The bits of all packed numbers, which are of one width.
fn bits_of(values: u32, width: u8) -> u64
    ensures bits { result ≡ values * width }
    ensures small { result < 2 ^ 40 }
{
    u64::from(values) * u64::from(width)
}

/// The number, from 1, of the first group that takes the sum of the lengths past the values, else of the last one, where
/// `before` groups of this length stand before the last.
fn first_past(values: u32, each: u32, before: u32) -> u64
    ensures { (last : ℕ) → result ≡ first_group_past values 0 (replicate before each ++ last ∷ []) }
{
    if each > 0 && values / each < before {
        return u64::from(values / each) + 1;
    }
    u64::from(before) + 1
}

/// The code of each value, where no packed number has any bits.
fn code_of_alike(layout: &Layout) -> Code
    requires alike { AreAlike layout.now }
    ensures code { result ≡ code_of layout.now (record { reference = 0; width = 0; count = 0 }) 0 }
    ensures small { number_of result < 2 ^ 49 }
{
    if layout.management == 0 {
        Code::Present(0)
    } else {
        Code::Primary
    }
}

/// The place, from 1, of the first number out of range, or 0, where `count` codes are all this one.
fn place_of_same(told: &Told, code: Code, count: u32) -> u64
    requires order { (told.now.order ≡ 1) ⊎ (told.now.order ≡ 2) }
    requires first { nat_abs told.now.first ≤ 2 ^ 31 }
    requires second { nat_abs told.now.second ≤ 2 ^ 31 }
    requires minimum { nat_abs told.now.minimum ≤ 2 ^ 31 }
    requires code { number_of code < 2 ^ 49 }
    ensures { result ≡ first_place is_out_of_range (points_of (After (descriptors_in told.now) NoNumber) (replicate count code)) }
{
    let mut teller = Teller::start(told.running());
    teller.tell_same(code, count);
    teller.beyond()
}
