//! The choice of the first group at each place, from the last code to the first.

ghost use Rattle.std.specs.Prelude.{◌≡◌, true, ◌+◌, ◌%◌, ◌^◌, ◌<◌, ◌≤◌, length, drop, slice_set};
ghost use Rattle.grib_packing.specs.Groupings.{width_of};
ghost use Rattle.grib_split.specs.Costs.{CanSplit, header_of};
ghost use Rattle.grib_split.specs.Alike.{Alike, HeadsFrom, Known};
ghost use Rattle.grib_split.specs.Least.{AreHeads, IsLeast, Best, with_first};
ghost use Rattle.grib_split.specs.Runs.{Runs, Waits, Afters, Falls, Soonest, OthersStay, IsLow, AreLengths, after_of, SameNumbers, SameMarks, SameWidths};

use crate::slots::{Cheapest, Slots, lengths_round};
use grib_codes::Codes;

/// The numbers that a grouping's cost rests on.
#[derive(Clone, Copy, Debug, PartialEq, Eq)]
pub struct Costs {
    /// How many codes are reserved for missing points: 0, 1 or 2.
    pub reserved: u32,
    /// The bits of each group reference.
    pub reference_bits: u32,
    /// The bits of each coded group width.
    pub width_bits: u32,
}

impl Costs {
    /// The bits that a group takes beside its numbers.
    #[inline(always)]
    pub(crate) fn header(&self) -> u32
        requires { header_of self.now ≤ 44 }
        ensures { result ≡ header_of self.now }
    {
        self.reference_bits + self.width_bits + 6
    }
}

/// Writes for each place the length of the first group of the grouping that is chosen for the codes from
/// that place on: of the groupings into runs of 1 to 64 codes that take the fewest bits, the first one,
/// where the first length that differs decides and the smaller stands first. It takes no memory.
pub fn least_choices(codes: &Codes<'_>, costs: &Costs, choices: &mut [u8])
    requires split { CanSplit costs.now codes.now }
    requires same { length choices.old ≡ length codes.now }
    ensures { AreHeads (header_of costs.now) (width_of costs.now.reserved) codes.now choices.new }
{
    let lengths = lengths_round();
    let mut slots = Slots::none();
    let mut here = Here {
        best: Cheapest { length: 1, cost: 0 },
        alike: 0,
        steady: false,
    };
    let mut at = codes.len();
    while at > 0 {
        at -= 1;
        here = here_at(&mut slots, codes, at, here, costs, &lengths);
        choices[at] = here.best.length as u8;
        if here.steady {
            let gone = go_on(&mut slots, codes, at, here, costs, choices);
            at = gone.at;
            here = gone.here;
        }
    }
}

/// What is known at a place.
#[derive(Clone, Copy, Debug)]
struct Here {
    /// The first group that is chosen there, and the least cost from there on.
    best: Cheapest,
    /// How many codes from there on are seen to be the same, up to 64.
    alike: u32,
    /// Whether they are 64, and the least cost does not rise from one of these places to the next.
    steady: bool,
}

/// A place, and what is known there.
#[derive(Clone, Copy, Debug)]
struct Gone {
    at: usize,
    here: Here,
}

/// Goes on from a place where 64 codes are the same, as long as those before it are the same too, and writes a choice
/// for each. None of the runs takes a bit, and little is done at a place.
fn go_on(
    slots: &mut Slots,
    codes: &Codes<'_>,
    from: usize,
    here: Here,
    costs: &Costs,
    choices: &mut [u8],
) -> Gone
    requires split { CanSplit costs.now codes.now }
    requires place { from < length codes.now }
    requires room { length choices.old ≡ length codes.now }
    requires known { Known (header_of costs.now) costs.now.reserved codes.now from slots.old here }
    requires steady { here.steady ≡ true }
    requires heads { HeadsFrom costs.now codes.now from choices.old }
    ensures place { result.at < length codes.now }
    ensures less { result.at ≤ from }
    ensures known { Known (header_of costs.now) costs.now.reserved codes.now result.at slots.new result.here }
    ensures heads { HeadsFrom costs.now codes.now result.at choices.new }
{
    let mut at = from;
    let mut best = here.best;
    while at > 0 && codes.are_same(at - 1, at) {
        at -= 1;
        best = best_of_one(slots, at, best, costs);
        choices[at] = best.length as u8;
    }
    Gone {
        at,
        here: Here {
            best,
            alike: 64,
            steady: true,
        },
    }
}

/// Goes on by the code at place `at`, from what is known at the next place.
#[inline]
fn here_at(
    slots: &mut Slots,
    codes: &Codes<'_>,
    at: usize,
    next: Here,
    costs: &Costs,
    lengths: &[u16; 128],
) -> Here
    requires split { CanSplit costs.now codes.now }
    requires lengths { AreLengths lengths.now }
    requires place { at < length codes.now }
    requires known { Known (header_of costs.now) costs.now.reserved codes.now (at + 1) slots.old next }
    ensures known { Known (header_of costs.now) costs.now.reserved codes.now at slots.new result }
    ensures best { Best (header_of costs.now) (width_of costs.now.reserved) (drop at codes.now)
        (after_of slots.new at) result.best.length }
{
    let alike = alike_from(codes, at, next.alike);
    let best = best_of_all(slots, codes, at, next.best.cost, costs, lengths);
    let steady = alike == 64 && slots.falls(at, best.cost);
    Here {
        best,
        alike,
        steady,
    }
}

/// How many codes from `at` on are the same, up to 64, where `after` of those behind it are.
#[inline]
fn alike_from(codes: &Codes<'_>, at: usize, after: u32) -> u32
    requires place { at < length codes.now }
    requires most { length codes.now ≤ 33554432 }
    requires after { Alike codes.now (at + 1) after }
    ensures { Alike codes.now at result }
{
    if after == 0 || !codes.are_same(at, at + 1) {
        return 1;
    }
    (after + 1).min(64)
}

/// The shortest of the runs from `at` on that cost least, where the 64 codes from there on are the same and
/// the least cost does not rise from one place to the next: none of these runs takes a bit.
#[inline]
fn best_of_one(slots: &mut Slots, at: usize, next: Cheapest, costs: &Costs) -> Cheapest
    requires place { at < 2 ^ 32 }
    requires soonest { Soonest slots.old (at + 1) next.length }
    requires falls { Falls slots.old (at + 1) next.cost }
    requires cost { next.cost ≡ header_of costs.now + after_of slots.old (at + 1) 64 }
    requires small { next.cost ≤ 1476395040 }
    requires header { header_of costs.now ≤ 44 }
    requires low { IsLow slots.old.after }
    requires base { slots.old.after.base ≤ next.cost }
    ensures here { after_of slots.new at 1 ≡ next.cost }
    ensures after { OthersStay slots.old slots.new ((at + 1) % 64) }
    ensures low { IsLow slots.new.after }
    ensures base { slots.new.after.base ≤ result.cost }
    ensures numbers { SameNumbers slots.old slots.new }
    ensures marks { SameMarks slots.old slots.new }
    ensures widths { SameWidths slots.old slots.new }
    ensures soonest { Soonest slots.new at result.length }
    ensures falls { Falls slots.new at result.cost }
    ensures cost { result.cost ≡ header_of costs.now + after_of slots.new at 64 }
{
    slots.put_after((at + 1) % 64, next.cost);
    if next.length < 64 {
        return Cheapest {
            length: next.length + 1,
            cost: next.cost,
        };
    }
    let least = slots.soonest(at);
    Cheapest {
        length: least.length,
        cost: least.cost + costs.header(),
    }
}

/// Goes on by the code at place `at`, and gives the best first group and the least cost from there on.
#[inline]
fn best_of_all(
    slots: &mut Slots,
    codes: &Codes<'_>,
    at: usize,
    cost: u32,
    costs: &Costs,
    lengths: &[u16; 128],
) -> Cheapest
    requires split { CanSplit costs.now codes.now }
    requires lengths { AreLengths lengths.now }
    requires place { at < length codes.now }
    requires runs { Runs costs.now.reserved codes.now (at + 1) slots.old }
    requires after { Afters (header_of costs.now) costs.now.reserved codes.now (at + 1) slots.old }
    requires cost { IsLeast (header_of costs.now) (width_of costs.now.reserved) (drop (at + 1) codes.now) cost }
    requires low { IsLow slots.old.after }
    requires base { slots.old.after.base ≤ cost }
    ensures low { IsLow slots.new.after }
    ensures base { slots.new.after.base ≤ result.cost }
    ensures runs { Runs costs.now.reserved codes.now at slots.new }
    ensures after { Afters (header_of costs.now) costs.now.reserved codes.now at slots.new }
    ensures best { Best (header_of costs.now) (width_of costs.now.reserved) (drop at codes.now)
        (after_of slots.new at) result.length }
    ensures cost { result.cost ≡ with_first (header_of costs.now) (width_of costs.now.reserved) (drop at codes.now)
        result.length (after_of slots.new at result.length) }
{
    slots.begin((at + 1) % 64, cost);
    best_at(slots, codes, at, costs, lengths)
}

/// Puts the code at place `at` before the runs that wait for it, and gives the best first group and the least
/// cost from there on.
#[inline]
fn best_at(
    slots: &mut Slots,
    codes: &Codes<'_>,
    at: usize,
    costs: &Costs,
    lengths: &[u16; 128],
) -> Cheapest
    requires split { CanSplit costs.now codes.now }
    requires lengths { AreLengths lengths.now }
    requires place { at < length codes.now }
    requires runs { Waits costs.now.reserved codes.now at slots.old }
    requires after { Afters (header_of costs.now) costs.now.reserved codes.now at slots.old }
    requires low { IsLow slots.old.after }
    ensures runs { Runs costs.now.reserved codes.now at slots.new }
    ensures after { slots.new.after ≡ slots.old.after }
    ensures best { Best (header_of costs.now) (width_of costs.now.reserved) (drop at codes.now)
        (after_of slots.old at) result.length }
    ensures cost { result.cost ≡ with_first (header_of costs.now) (width_of costs.now.reserved) (drop at codes.now)
        result.length (after_of slots.old at result.length) }
{
    let places = slots.take(codes.at(at), (at + 1) % 64, costs.reserved);
    slots.mend(places, costs.reserved);
    let cost = slots.price(at, lengths);
    Cheapest {
        length: slots.shortest(at, cost),
        cost: slots.whole(cost) + costs.header(),
    }
}
