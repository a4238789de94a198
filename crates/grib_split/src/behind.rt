//! The least costs of the codes behind runs.

ghost use Rattle.std.specs.Prelude.{◌≡◌, ℕ, true, false, ◌+◌, ◌%◌, ◌^◌, ◌<◌, ◌≤◌, ◌≢◌, replicate, slice_index};
ghost use Rattle.std.specs.Int.{bit_at};
ghost use Rattle.grib_split.specs.Runs.{cost_at, IsLow, IsNear};

use std::simd::prelude::*;

/// Stands behind a run that ends past the codes: more than 63 codes can cost.
const NONE: u16 = 60000;

/// The base goes up where a cost is higher above it than this.
const HIGH: u16 = 40000;

/// How far the base goes up.
const RAISE: u16 = 32768;

/// The least cost of the codes behind each run, above a base that goes up with them: within 64 places costs differ by
/// less than 4,096, so that 16 bits are enough, and lanes hold eight.
#[derive(Clone, Copy, Debug)]
pub(crate) struct Behind {
    pub base: u32,
    /// How far each cost is above the base.
    pub above: [u16; 64],
}

impl Behind {
    /// What stands behind runs that end past all codes.
    pub(crate) fn none() -> Behind
        ensures base { result.base ≡ 0 }
        ensures above { result.above ≡ replicate 64 60000 }
    {
        Behind {
            base: 0,
            above: [NONE; 64],
        }
    }

    /// Puts the cost behind the run that ends at a place.
    #[inline]
    pub(crate) fn put(&mut self, place: usize, cost: u32)
        requires place { place < 64 }
        requires base { self.old.base ≤ cost }
        requires most { cost ≤ 1476395040 }
        requires near { IsNear self.old place cost }
        requires low { IsLow self.old }
        ensures here { cost_at self.new place ≡ cost }
        ensures others { (other : ℕ) → other < 64 → other ≢ place → cost_at self.new other ≡ cost_at self.old other }
        ensures base { self.new.base ≤ cost }
        ensures low { IsLow self.new }
    {
        let above = (cost - self.base) as u16;
        self.above[place] = above;
        if above > HIGH {
            self.base += u32::from(RAISE);
            lower(&mut self.above);
        }
    }
}

/// Takes from each cost what the base goes up.
fn lower(costs: &mut [u16; 64])
    requires { (place : ℕ) → place < 64 → 32768 ≤ slice_index costs.old place }
    ensures each { (place : ℕ) → place < 64 → slice_index costs.new place + 32768 ≡ slice_index costs.old place }
    ensures low { (place : ℕ) → place < 64 → slice_index costs.new place < 32768 }
{
    for place in 0..64 {
        costs[place] -= RAISE;
    }
}

/// The least length with this cost, where the costs of the lengths 1 to 64 stand at the places after `at`, counted
/// round 64.
#[inline]
pub(crate) fn first_of(costs: &[u16; 64], cost: u16, at: usize) -> u32
    requires place { at < 2 ^ 32 }
    requires one { (place : ℕ) × (place < 64) × (slice_index costs.now place ≡ cost) }
    ensures some { 1 ≤ result }
    ensures most { result ≤ 64 }
    ensures here { slice_index costs.now ((at + result) % 64) ≡ cost }
    ensures first { (l : ℕ) → 1 ≤ l → l < result → slice_index costs.now ((at + l) % 64) ≢ cost }
{
    let places = places_of(costs, cost);
    first_from(places, (at + 1) % 64) + 1
}

/// The places of a cost.
#[inline]
fn places_of(costs: &[u16; 64], cost: u16) -> u64
    ensures in_places { (place : ℕ) → place < 64 → bit_at result place ≡ 1 → slice_index costs.now place ≡ cost }
    ensures not_in { (place : ℕ) → place < 64 → bit_at result place ≡ 0 → slice_index costs.now place ≢ cost }
{
    u16x64::from_array(*costs)
        .simd_eq(u16x64::splat(cost))
        .to_bitmask()
}

/// How far the first of some places is from `start` on, counted round 64.
#[inline]
fn first_from(places: u64, start: usize) -> u32
    requires start { start < 64 }
    requires some { 0 < places }
    ensures within { result < 64 }
    ensures is { bit_at places ((start + result) % 64) ≡ 1 }
    ensures first { (n : ℕ) → n < result → bit_at places ((start + n) % 64) ≡ 0 }
{
    let later = places >> start;
    if later != 0 {
        later.trailing_zeros()
    } else {
        64 - start as u32 + places.trailing_zeros()
    }
}
