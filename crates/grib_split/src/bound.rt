//! A quick look at what no grouping goes below.

ghost use Rattle.std.specs.Prelude.{◌≡◌, ℕ, ◌+◌, ◌-◌, ◌<◌, ◌≤◌, List, length, take, drop, All, slice_index};
ghost use Rattle.grib_packing.specs.Groupings.{IsGrouping, cost_of, width_of};
ghost use Rattle.grib_codes.specs.Span.{IsTold};
ghost use Rattle.grib_split.specs.Bound.{NoneTakesFewer};
ghost use Rattle.grib_split.specs.Costs.{CanSplit, header_of};

use crate::choosing::Costs;
use grib_codes::{Codes, Span, is_number};

/// How many codes are looked at by themselves.
const BLOCK: usize = 8;

/// The bits that a block takes at most, as one group: 44 for its header and 32 for each code.
const MOST: u32 = 300;

/// Fewer blocks than these are all looked at.
const FEW: usize = 64;

/// One block of these is looked at first: no power of 2, since a grid's rows often have a multiple of 128 points.
const STRIDE: usize = 17;

/// Bits that no grouping of these codes into runs of 1 to 64 takes fewer than: a quick look, which ends once `enough`
/// are known, or where some of the codes show that they will hardly be.
pub fn bits_at_least(codes: &Codes<'_>, costs: &Costs, enough: u64) -> u64
    requires split { CanSplit costs.now codes.now }
    requires told { All (IsTold costs.now.reserved) codes.now }
    ensures { (lengths : List ℕ) → IsGrouping (length codes.now) lengths
        → result ≤ cost_of (header_of costs.now) (width_of costs.now.reserved) lengths codes.now }
{
    if !may_reach(codes, costs, enough) {
        return 0;
    }
    let header = costs.header();
    let mut bits = 0;
    for block in 0..codes.len() / BLOCK {
        if bits >= enough {
            return bits;
        }
        bits += u64::from(block_bits(codes, block * BLOCK, costs).saturating_sub(header));
    }
    bits
}

/// Whether the bits of some blocks, all over the codes, let those of all blocks come to `enough`.
fn may_reach(codes: &Codes<'_>, costs: &Costs, enough: u64) -> bool
    requires { CanSplit costs.now codes.now }
{
    let blocks = codes.len() / BLOCK;
    if blocks < FEW {
        return true;
    }
    let header = costs.header();
    let looks = blocks / STRIDE;
    let mut bits = 0;
    for look in 0..looks {
        let from = look * STRIDE * BLOCK;
        bits += u64::from(block_bits(codes, from, costs).saturating_sub(header));
    }
    bits * blocks as u64 / looks as u64 >= enough
}

/// Bits that no grouping of the 8 codes from `from` on takes fewer than: none where they are the same, whose only bits
/// are those of a header.
#[inline]
fn block_bits(codes: &Codes<'_>, from: usize, costs: &Costs) -> u32
    requires split { CanSplit costs.now codes.now }
    requires fits { from + 8 ≤ length codes.now }
    ensures few { result ≤ 300 }
    ensures bits { NoneTakesFewer (header_of costs.now) (width_of costs.now.reserved) (take 8 (drop from codes.now)) result }
{
    if are_alike(codes, from) {
        return 0;
    }
    let mut rest = [0; BLOCK + 1];
    for count in 1..BLOCK + 1 {
        rest[count] = best_of(codes, from + BLOCK - count, count, costs, &rest);
    }
    rest[BLOCK]
}

/// Whether the 8 codes from `from` on are the same.
#[inline]
fn are_alike(codes: &Codes<'_>, from: usize) -> bool
    requires most { length codes.now ≤ 33554432 }
    requires fits { from + 8 ≤ length codes.now }
{
    for at in 1..BLOCK {
        if !codes.are_same(from, from + at) {
            return false;
        }
    }
    true
}

/// Bits that no grouping of `count` codes from `from` on takes fewer than. `rest` tells such bits for each smaller
/// count of the last of these codes. It looks at numbers alone, and leaves codes with missing points to `best_of_any`.
#[inline]
fn best_of(codes: &Codes<'_>, from: usize, count: usize, costs: &Costs, rest: &[u32; 9]) -> u32
    requires split { CanSplit costs.now codes.now }
    requires some { 1 ≤ count }
    requires short { count ≤ 8 }
    requires fits { from + count ≤ length codes.now }
    requires small { (place : ℕ) → place < 9 → slice_index rest.now place ≤ 300 }
    requires rest { (l : ℕ) → 1 ≤ l → l ≤ count
        → NoneTakesFewer (header_of costs.now) (width_of costs.now.reserved) (take (count - l) (drop (from + l) codes.now))
        (slice_index rest.now (count - l)) }
    ensures few { result ≤ 300 }
    ensures bits { NoneTakesFewer (header_of costs.now) (width_of costs.now.reserved) (take count (drop from codes.now)) result }
{
    let header = costs.header();
    let mut span = Span::none();
    let mut best = MOST;
    for at in 0..count {
        let code = codes.at(from + at);
        if !is_number(code) {
            return best_of_any(codes, from, count, costs, rest);
        }
        span = span.with(code);
        let numbers = (at as u32 + 1) * span.width(costs.reserved);
        best = best.min(header + numbers + rest[count - 1 - at]);
    }
    best
}

/// What `best_of` gives, of numbers and missing points.
#[inline(never)]
fn best_of_any(codes: &Codes<'_>, from: usize, count: usize, costs: &Costs, rest: &[u32; 9]) -> u32
    requires split { CanSplit costs.now codes.now }
    requires some { 1 ≤ count }
    requires short { count ≤ 8 }
    requires fits { from + count ≤ length codes.now }
    requires small { (place : ℕ) → place < 9 → slice_index rest.now place ≤ 300 }
    requires rest { (l : ℕ) → 1 ≤ l → l ≤ count
        → NoneTakesFewer (header_of costs.now) (width_of costs.now.reserved) (take (count - l) (drop (from + l) codes.now))
        (slice_index rest.now (count - l)) }
    ensures few { result ≤ 300 }
    ensures bits { NoneTakesFewer (header_of costs.now) (width_of costs.now.reserved) (take count (drop from codes.now)) result }
{
    let header = costs.header();
    let mut span = Span::none();
    let mut best = MOST;
    for at in 0..count {
        span = span.with(codes.at(from + at));
        let numbers = (at as u32 + 1) * span.width(costs.reserved);
        best = best.min(header + numbers + rest[count - 1 - at]);
    }
    best
}
