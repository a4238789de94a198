//! The runs of codes that begin at one place.

ghost use Rattle.std.specs.Prelude.{◌≡◌, ℕ, true, false, ◌+◌, ◌-◌, ◌*◌, ◌%◌, ◌^◌, ◌<◌, ◌≤◌, ◌∷◌, ◌≢◌, ◌⊎◌, List, min, max, replicate, length, slice_index, slice_set};
ghost use Rattle.std.specs.Int.{bit_at};
ghost use Rattle.grib_base.specs.declared.code.Code as code_io;
ghost use Rattle.grib_packing.specs.Groupings.{digits};
ghost use Rattle.grib_codes.specs.Span.{IsBelow};
ghost use Rattle.grib_split.specs.Runs.{Tells, Told, Wide, WideAt, WideBut, Begun, AreLengths, price_at, Soonest, Falls, Nested, Settled, Covers, Covered, Numbered, IsNarrow, StayAt, after_of, cost_at, OthersStay, IsLow, IsNear, SameNumbers, SameMarks, SameWidths};

use crate::behind::{Behind, first_of};
use grib_base::Code;
use std::simd::prelude::*;

/// The runs of 1 to 64 codes from a place on, each kept at the place of its end, counted round 64: all of
/// them go on by one code at once.
#[derive(Clone, Copy, Debug)]
pub(crate) struct Slots {
    /// The least and the greatest number of each run: 4,294,967,295 and 0 where it has none.
    least: [u32; 64],
    greatest: [u32; 64],
    /// A run keeps its width while its numbers differ by less; 0 for a run of marks alone.
    limit: [u32; 64],
    /// The width of each run as a group, in bits.
    width: [u16; 64],
    /// The least cost of the codes after each run.
    after: Behind,
    /// What each run and the codes after it cost, without the header of the run and above the base of these costs, at
    /// the place that was priced last.
    cost: [u16; 64],
    /// 1 where the run has a primary missing point, and a secondary one, else 0.
    primary: [u8; 64],
    secondary: [u8; 64],
}

/// A width in bits, and the difference of numbers below which it stays.
#[derive(Clone, Copy, Debug)]
struct Width {
    bits: u32,
    limit: u32,
}

/// The shortest of the runs that cost least, and this cost.
#[derive(Clone, Copy, Debug)]
pub(crate) struct Cheapest {
    pub length: u32,
    pub cost: u32,
}

impl Slots {
    /// The runs of no codes, behind all codes.
    pub(crate) fn none() -> Slots
        ensures least { result.least ≡ replicate 64 4294967295 }
        ensures greatest { result.greatest ≡ replicate 64 0 }
        ensures limit { result.limit ≡ replicate 64 0 }
        ensures width { result.width ≡ replicate 64 0 }
        ensures base { result.after.base ≡ 0 }
        ensures after { result.after.above ≡ replicate 64 60000 }
        ensures primary { result.primary ≡ replicate 64 0 }
        ensures secondary { result.secondary ≡ replicate 64 0 }
    {
        Slots {
            least: [u32::MAX; 64],
            greatest: [0; 64],
            limit: [0; 64],
            width: [0; 64],
            after: Behind::none(),
            cost: [0; 64],
            primary: [0; 64],
            secondary: [0; 64],
        }
    }

    /// Puts the run of no codes, before codes of this least cost, at a place.
    #[inline]
    pub(crate) fn begin(&mut self, place: usize, cost: u32)
        requires place { place < 64 }
        requires base { self.old.after.base ≤ cost }
        requires most { cost ≤ 1476395040 }
        requires near { IsNear self.old.after place cost }
        requires low { IsLow self.old.after }
        ensures here { Begun self.new place cost }
        ensures least { self.new.least ≡ slice_set self.old.least place 4294967295 }
        ensures greatest { self.new.greatest ≡ slice_set self.old.greatest place 0 }
        ensures limit { self.new.limit ≡ slice_set self.old.limit place 1 }
        ensures width { self.new.width ≡ slice_set self.old.width place 0 }
        ensures after { OthersStay self.old self.new place }
        ensures low { IsLow self.new.after }
        ensures primary { self.new.primary ≡ slice_set self.old.primary place 0 }
        ensures secondary { self.new.secondary ≡ slice_set self.old.secondary place 0 }
    {
        self.least[place] = u32::MAX;
        self.greatest[place] = 0;
        self.limit[place] = 1;
        self.width[place] = 0;
        self.primary[place] = 0;
        self.secondary[place] = 0;
        self.after.put(place, cost);
    }

    /// Puts a code before each run, of which the shortest is at place `start`, and gives the places where the width
    /// is still to be found.
    #[inline]
    pub(crate) fn take(&mut self, code: Code, start: usize, reserved: u32) -> u64
        requires below { IsBelow reserved code }
        requires start { start < 64 }
        requires nested { Nested self.old start }
        ensures told { (place : ℕ) (run : List code_io.Code) → place < 64
            → Told self.old place run → Told self.new place (code ∷ run) }
        ensures wide { (place : ℕ) (run : List code_io.Code) → place < 64 → bit_at result place ≡ 0
            → slice_index self.old.greatest place + reserved < 2 ^ 32 → Told self.old place run
            → WideAt reserved self.old place run → WideAt reserved self.new place (code ∷ run) }
        ensures after { self.new.after ≡ self.old.after }
    {
        match code {
            Code::Present(number) => {
                let number = number as u32;
                let narrow = self.are_narrow(number, start, reserved);
                self.take_number(number, start, narrow)
            }
            Code::Primary => self.take_primary(),
            Code::Secondary => self.take_secondary(),
        }
    }

    /// Goes on from the shortest run to longer ones, 16 places at a time, and ends where the number is between the
    /// least and the greatest one of a run: it is so for each longer run, and what is kept of them stays.
    #[inline]
    fn take_number(&mut self, number: u32, start: usize, narrow: bool) -> u64
        requires start { start < 64 }
        requires nested { Nested self.old start }
        requires narrow { narrow ≡ true → (place : ℕ) → place < 64 → IsNarrow self.old place number }
        ensures least { (place : ℕ) → place < 64
            → slice_index self.new.least place ≡ min (slice_index self.old.least place) number }
        ensures greatest { (place : ℕ) → place < 64
            → slice_index self.new.greatest place ≡ max (slice_index self.old.greatest place) number }
        ensures settled { (place : ℕ) → place < 64 → bit_at result place ≡ 0
            → Settled narrow self.old self.new place ⊎ Covered self.old self.new place number }
        ensures limit { self.new.limit ≡ self.old.limit }
        ensures marks { SameMarks self.old self.new }
        ensures after { self.new.after ≡ self.old.after }
    {
        let first = start / 16 * 16;
        let mut places = self.take_part(number, first, narrow);
        let mut seen = 16;
        while seen < 64 && self.misses(number, (first + seen) % 64) {
            places |= self.take_part(number, (first + seen) % 64, narrow);
            seen += 16;
        }
        places
    }

    /// Whether no code is reserved, and a number and those of the runs take 16 bits at most. The longest run ends before
    /// place `start`, and no other one has a greater number.
    #[inline]
    fn are_narrow(&self, number: u32, start: usize, reserved: u32) -> bool
        requires start { start < 64 }
        requires nested { Nested self.now start }
        ensures none { result ≡ true → reserved ≡ 0 }
        ensures narrow { result ≡ true → (place : ℕ) → place < 64 → IsNarrow self.now place number }
    {
        let greatest = self.greatest[(start + 63) % 64].max(number);
        reserved == 0 && greatest < 65536
    }

    /// Puts a number before the runs at the 16 places from `from` on, and gives those of them where the width is still
    /// to be found. Where numbers are narrow, and no code is reserved, all 16 widths are found at once.
    #[inline]
    fn take_part(&mut self, number: u32, from: usize, narrow: bool) -> u64
        requires from { from + 16 ≤ 64 }
        requires narrow { narrow ≡ true → (place : ℕ) → from ≤ place → place < from + 16
            → IsNarrow self.old place number }
        ensures here { (place : ℕ) → from ≤ place → place < from + 16
            → Numbered narrow self.old self.new number result place }
        ensures others { (place : ℕ) → (place < from) ⊎ (from + 16 ≤ place) → StayAt self.old self.new place }
        ensures limit { self.new.limit ≡ self.old.limit }
        ensures marks { SameMarks self.old self.new }
        ensures after { self.new.after ≡ self.old.after }
    {
        lesser_from(&mut self.least, number, from);
        greater_from(&mut self.greatest, number, from);
        if narrow {
            widths_from(&self.least, &self.greatest, &mut self.width, from);
            return 0;
        }
        places_apart(&self.least, &self.greatest, &self.limit, from)
    }

    /// Whether a number is not between the least and the greatest one of the run at a place.
    #[inline]
    fn misses(&self, number: u32, place: usize) -> bool
        requires { place < 64 }
        ensures { result ≡ false → Covers self.now place number }
    {
        number < self.least[place] || self.greatest[place] < number
    }

    #[inline]
    fn take_primary(&mut self) -> u64
        ensures places { (place : ℕ) → place < 64 → bit_at result place ≡ 0 → 0 < slice_index self.old.primary place }
        ensures primary { self.new.primary ≡ replicate 64 1 }
        ensures secondary { self.new.secondary ≡ self.old.secondary }
        ensures numbers { SameNumbers self.old self.new }
        ensures widths { SameWidths self.old self.new }
        ensures after { self.new.after ≡ self.old.after }
    {
        let places = places_of_zero(&self.primary);
        self.primary = [1; 64];
        places
    }

    #[inline]
    fn take_secondary(&mut self) -> u64
        ensures places { (place : ℕ) → place < 64 → bit_at result place ≡ 0 → 0 < slice_index self.old.secondary place }
        ensures secondary { self.new.secondary ≡ replicate 64 1 }
        ensures primary { self.new.primary ≡ self.old.primary }
        ensures numbers { SameNumbers self.old self.new }
        ensures widths { SameWidths self.old self.new }
        ensures after { self.new.after ≡ self.old.after }
    {
        let places = places_of_zero(&self.secondary);
        self.secondary = [1; 64];
        places
    }
}

impl Slots {
    /// Finds the width of the run at each of these places.
    #[inline]
    pub(crate) fn mend(&mut self, places: u64, reserved: u32)
        requires few { reserved ≤ 2 }
        requires small { (place : ℕ) → place < 64 → slice_index self.old.greatest place + reserved < 2 ^ 32 }
        ensures wide { (run : ℕ → List code_io.Code) → ((place : ℕ) → place < 64 → Told self.old place (run place))
            → WideBut reserved self.old places run → WideBut reserved self.new 0 run }
        ensures numbers { SameNumbers self.old self.new }
        ensures marks { SameMarks self.old self.new }
        ensures after { self.new.after ≡ self.old.after }
    {
        let mut rest = places;
        while rest != 0 {
            let place = rest.trailing_zeros();
            self.mend_one(place as usize, reserved);
            rest &= rest - 1;
        }
    }

    /// Finds the width of the run at a place.
    #[inline]
    fn mend_one(&mut self, place: usize, reserved: u32)
        requires place { place < 64 }
        requires few { reserved ≤ 2 }
        requires small { slice_index self.old.greatest place + reserved < 2 ^ 32 }
        ensures wide { (run : List code_io.Code) → Told self.old place run → WideAt reserved self.new place run }
        ensures width { self.new.width ≡ slice_set self.old.width place (slice_index self.new.width place) }
        ensures limit { self.new.limit ≡ slice_set self.old.limit place (slice_index self.new.limit place) }
        ensures numbers { SameNumbers self.old self.new }
        ensures marks { SameMarks self.old self.new }
        ensures after { self.new.after ≡ self.old.after }
    {
        let width = self.width_at(place, reserved);
        self.width[place] = width.bits as u16;
        self.limit[place] = width.limit;
    }

    /// The width of the run at a place by what is kept of it.
    #[inline]
    fn width_at(&self, place: usize, reserved: u32) -> Width
        requires place { place < 64 }
        requires few { reserved ≤ 2 }
        requires small { slice_index self.now.greatest place + reserved < 2 ^ 32 }
        ensures few { result.bits ≤ 32 }
        ensures wide { (run : List code_io.Code) → Told self.now place run → Wide reserved result.bits result.limit run }
    {
        let least = self.least[place];
        let greatest = self.greatest[place];
        if greatest <= least {
            return width_of_one(
                least,
                greatest,
                self.primary[place],
                self.secondary[place],
                reserved,
            );
        }
        width_of_many(greatest - least, reserved)
    }

    /// Finds what each of the runs from `at` on costs with the codes after it, and gives the least of these costs.
    #[inline]
    pub(crate) fn price(&mut self, at: usize, lengths: &[u16; 128]) -> u16
        requires lengths { AreLengths lengths.now }
        requires wide { (place : ℕ) → place < 64 → slice_index self.old.width place ≤ 32 }
        requires low { IsLow self.old.after }
        ensures cost { (place : ℕ) → place < 64 → slice_index self.new.cost place ≡ price_at self.old at place }
        ensures least { (place : ℕ) → place < 64 → result ≤ slice_index self.new.cost place }
        ensures one { (place : ℕ) × (place < 64) × (slice_index self.new.cost place ≡ result) }
        ensures numbers { SameNumbers self.old self.new }
        ensures marks { SameMarks self.old self.new }
        ensures widths { SameWidths self.old self.new }
        ensures after { self.new.after ≡ self.old.after }
    {
        let first = 63 - at % 64;
        let mut least = u16::MAX;
        for place in 0..64 {
            let cost = lengths[first + place] * self.width[place] + self.after.above[place];
            self.cost[place] = cost;
            least = least.min(cost);
        }
        least
    }

    /// A cost above the base of these costs as a whole.
    #[inline]
    pub(crate) fn whole(&self, above: u16) -> u32
        requires { self.now.after.base ≤ 1476395040 }
        ensures { result ≡ self.now.after.base + above }
    {
        self.after.base + u32::from(above)
    }

    /// The length of the shortest of the runs from `at` on that have this cost, the least.
    #[inline]
    pub(crate) fn shortest(&self, at: usize, cost: u16) -> u32
        requires place { at < 2 ^ 32 }
        requires least { (place : ℕ) → place < 64 → cost ≤ slice_index self.now.cost place }
        requires one { (place : ℕ) × (place < 64) × (slice_index self.now.cost place ≡ cost) }
        ensures some { 1 ≤ result }
        ensures most { result ≤ 64 }
        ensures here { slice_index self.now.cost ((at + result) % 64) ≡ cost }
        ensures first { (l : ℕ) → 1 ≤ l → l < result → cost < slice_index self.now.cost ((at + l) % 64) }
    {
        first_of(&self.cost, cost, at)
    }
}

/// The costs after runs of one code.
impl Slots {
    /// Puts the least cost of the codes after a run.
    #[inline]
    pub(crate) fn put_after(&mut self, place: usize, cost: u32)
        requires place { place < 64 }
        requires base { self.old.after.base ≤ cost }
        requires most { cost ≤ 1476395040 }
        requires near { IsNear self.old.after place cost }
        requires low { IsLow self.old.after }
        ensures here { cost_at self.new.after place ≡ cost }
        ensures after { OthersStay self.old self.new place }
        ensures low { IsLow self.new.after }
        ensures base { self.new.after.base ≤ cost }
        ensures numbers { SameNumbers self.old self.new }
        ensures marks { SameMarks self.old self.new }
        ensures widths { SameWidths self.old self.new }
    {
        self.after.put(place, cost);
    }

    /// The shortest of the runs from `at` on with the least cost after them, and this cost. It does not rise from one
    /// place to the next, so that it is the one after 64 codes.
    #[inline]
    pub(crate) fn soonest(&self, at: usize) -> Cheapest
        requires place { at < 2 ^ 32 }
        requires base { self.now.after.base ≤ 1476395040 }
        requires falls { (l : ℕ) → 1 ≤ l → l < 64 → after_of self.now at (l + 1) ≤ after_of self.now at l }
        ensures cost { result.cost ≡ after_of self.now at 64 }
        ensures soonest { Soonest self.now at result.length }
    {
        let least = self.after.above[at % 64];
        Cheapest {
            length: first_of(&self.after.above, least, at),
            cost: self.whole(least),
        }
    }

    /// Whether the least cost does not rise from `at`, where it is this, over the 64 places after it.
    #[inline]
    pub(crate) fn falls(&self, at: usize, cost: u32) -> bool
        requires place { at < 2 ^ 32 }
        requires base { self.now.after.base ≤ 1476395040 }
        ensures { result ≡ true → Falls self.now at cost }
    {
        for length in 1..64 {
            if self.after.above[(at + length + 1) % 64] > self.after.above[(at + length) % 64] {
                return false;
            }
        }
        self.whole(self.after.above[(at + 1) % 64]) <= cost
    }
}

/// The width of a run whose numbers are not all the same, from the difference of the greatest and the least.
#[inline]
fn width_of_many(spread: u32, reserved: u32) -> Width
    requires few { reserved ≤ 2 }
    requires small { spread + reserved < 2 ^ 32 }
    ensures is { result.bits ≡ digits (spread + reserved) }
    ensures few { result.bits ≤ 32 }
    ensures stays { (result.limit ≤ 1) ⊎ (result.limit + reserved ≤ 2 ^ result.bits) }
{
    let bits = digits_of(spread, reserved);
    Width {
        bits,
        limit: limit_of(bits, reserved),
    }
}

/// The number of binary digits of the sum of two numbers, 0 for 0. It has one digit less than twice the sum and 1,
/// which is never 0, so that the search for its highest digit need not ask.
#[inline]
fn digits_of(number: u32, more: u32) -> u32
    requires { number + more < 2 ^ 32 }
    ensures is { result ≡ digits (number + more) }
    ensures few { result ≤ 32 }
    ensures below { number + more < 2 ^ result }
{
    63 - (2 * u64::from(number) + (2 * u64::from(more) + 1)).leading_zeros()
}

/// The width of a run whose numbers are all the same, or that has none.
#[inline]
fn width_of_one(least: u32, greatest: u32, primary: u8, secondary: u8, reserved: u32) -> Width
    requires few { reserved ≤ 2 }
    requires one { greatest ≤ least }
    ensures few { result.bits ≤ 32 }
    ensures wide { (run : List code_io.Code) → Tells least greatest primary secondary run
        → Wide reserved result.bits result.limit run }
{
    if greatest < least {
        let bits = u32::from(primary.min(secondary).min(1));
        return Width { bits, limit: 0 };
    }
    if primary.max(secondary) == 0 {
        return Width { bits: 0, limit: 1 };
    }
    Width {
        bits: digits_of(0, reserved),
        limit: 1,
    }
}

/// The difference of numbers below which they take no more than these bits beside the reserved codes. It is 0 in
/// place of 4,294,967,296: the width of such a run is found anew with each code.
#[inline]
fn limit_of(bits: u32, reserved: u32) -> u32
    requires bits { bits ≤ 32 }
    requires room { reserved ≤ 2 ^ bits }
    ensures { (result ≤ 1) ⊎ (result + reserved ≤ 2 ^ bits) }
{
    (((1u64 << bits) - u64::from(reserved)) % 4294967296) as u32
}

/// The lengths 1 to 64, twice over: from `63 - at % 64` on, the lengths of the runs from `at` on by the places of their
/// ends.
pub(crate) fn lengths_round() -> [u16; 128]
    ensures { AreLengths result }
{
    let mut lengths = [0; 128];
    for index in 0..128 {
        lengths[index] = (index % 64) as u16 + 1;
    }
    lengths
}

/// Puts the lesser of each of 16 numbers and one in their places.
#[inline]
fn lesser_from(numbers: &mut [u32], number: u32, from: usize)
    requires { from + 16 ≤ length numbers.old }
    ensures here { (place : ℕ) → from ≤ place → place < from + 16
        → slice_index numbers.new place ≡ min (slice_index numbers.old place) number }
    ensures others { (place : ℕ) → (place < from) ⊎ (from + 16 ≤ place)
        → slice_index numbers.new place ≡ slice_index numbers.old place }
{
    let lanes = u32x16::from_slice(&numbers[from..]).simd_min(u32x16::splat(number));
    lanes.copy_to_slice(&mut numbers[from..]);
}

/// Puts the greater of each of 16 numbers and one in their places.
#[inline]
fn greater_from(numbers: &mut [u32], number: u32, from: usize)
    requires { from + 16 ≤ length numbers.old }
    ensures here { (place : ℕ) → from ≤ place → place < from + 16
        → slice_index numbers.new place ≡ max (slice_index numbers.old place) number }
    ensures others { (place : ℕ) → (place < from) ⊎ (from + 16 ≤ place)
        → slice_index numbers.new place ≡ slice_index numbers.old place }
{
    let lanes = u32x16::from_slice(&numbers[from..]).simd_max(u32x16::splat(number));
    lanes.copy_to_slice(&mut numbers[from..]);
}

/// Those of 16 places where the greatest number is not above the least one by less than the limit.
#[inline]
fn places_apart(least: &[u32], greatest: &[u32], limit: &[u32], from: usize) -> u64
    requires from { from + 16 ≤ 64 }
    requires least { from + 16 ≤ length least.now }
    requires greatest { from + 16 ≤ length greatest.now }
    requires limit { from + 16 ≤ length limit.now }
    requires ordered { (place : ℕ) → from ≤ place → place < from + 16
        → slice_index least.now place ≤ slice_index greatest.now place }
    ensures { (place : ℕ) → from ≤ place → place < from + 16 → bit_at result place ≡ 0
        → slice_index greatest.now place - slice_index least.now place < slice_index limit.now place }
{
    let spread = u32x16::from_slice(&greatest[from..]) - u32x16::from_slice(&least[from..]);
    let apart = u32x16::from_slice(&limit[from..]).simd_le(spread);
    apart.to_bitmask() << from
}

/// Puts the widths of the runs at 16 places: the bits of the difference of the greatest and the least number of each,
/// 16 at most.
#[inline]
fn widths_from(least: &[u32], greatest: &[u32], width: &mut [u16], from: usize)
    requires least { from + 16 ≤ length least.now }
    requires greatest { from + 16 ≤ length greatest.now }
    requires width { from + 16 ≤ length width.old }
    requires ordered { (place : ℕ) → from ≤ place → place < from + 16
        → slice_index least.now place ≤ slice_index greatest.now place }
    requires narrow { (place : ℕ) → from ≤ place → place < from + 16 → slice_index greatest.now place < 65536 }
    ensures here { (place : ℕ) → from ≤ place → place < from + 16 → slice_index width.new place
        ≡ digits (slice_index greatest.now place - slice_index least.now place) }
    ensures others { (place : ℕ) → (place < from) ⊎ (from + 16 ≤ place)
        → slice_index width.new place ≡ slice_index width.old place }
{
    let spread = u32x16::from_slice(&greatest[from..]) - u32x16::from_slice(&least[from..]);
    let narrow = spread.cast::<u16>();
    let bits = u16x16::splat(16) - narrow.leading_zeros();
    bits.copy_to_slice(&mut width[from..]);
}

/// The places of zero.
#[inline]
fn places_of_zero(marks: &[u8; 64]) -> u64
    ensures { (place : ℕ) → place < 64 → bit_at result place ≡ 0 → 0 < slice_index marks.now place }
{
    u8x64::from_array(*marks)
        .simd_eq(u8x64::splat(0))
        .to_bitmask()
}
