//! One item, from its bits to its points.

ghost use Rattle.std.specs.Prelude.{◌≡◌, ℕ, ◌+◌, ◌-◌, ◌*◌, ◌%◌, ◌==◌, ◌<◌, ◌≤◌, ◌++◌, min, map, List, length, nat_lt, MatchResult};
ghost use Rattle.std.specs.List.{position};
ghost use Rattle.grib_coding.specs.Coding.{Fits, greatest};
ghost use Rattle.grib_coding.specs.Items.{Item, covered};
ghost use Rattle.grib_coding.specs.Reading.{item_fault, padded, skipped, IsWithin, coded_of};
ghost use Rattle.grib_block_reading.specs.ItemRead.{IsOfKind, HasReference};
ghost use Rattle.grib_coding.specs.Numbers.{Code};
ghost use Rattle.grib_block_reading.specs.Kept.{IsKept, NoReference, StandsAt, reference_entries};
ghost use Rattle.grib_block_reading.specs.Taking.{ItemPassed, with_reference as has_reference};

use crate::bits_left::BitsLeft;
use crate::item::{Head, Kind};
use crate::numbers::{Kept, keep_block, keep_zero_blocks};
use grib_coding::{BlockFault, Coding};
use grib_packing::Keeper;

/// How many blocks an item that was read covers, or what is wrong with it, and what its numbers went to: none where
/// it is at fault.
#[derive(Debug, Drop)]
pub struct ReadItem<K> {
    /// How many blocks it covers, or what is wrong with it.
    pub blocks: Result<u32, BlockFault>,
    /// What its numbers went to.
    pub kept: Kept<K>,
}

/// Passes what may stand before the first item of an interval.
pub fn skip_padding(bits: &mut BitsLeft<'_>, coding: Coding, block: u32)
    requires { Fits coding }
    ensures { bits.new ≡ padded coding (block % coding.interval == 0) bits.old }
{
    if coding.is_padded() && block % u32::from(coding.interval) == 0 {
        bits.drop_to_octet();
    }
}

/// Whether the item that begins with a block has a reference.
pub fn is_referred(coding: Coding, block: u32) -> bool
    requires { Fits coding }
    ensures { result ≡ has_reference coding block }
{
    block % u32::from(coding.interval) == 0 && coding.is_mapped()
}

/// Takes an item that was read as a whole, whose first block is `block`, of `count` values, and whose codes, but for
/// the one that a reference stands for, are these.
pub fn take_read<K: Keeper>(
    head: Head,
    coding: Coding,
    count: u32,
    block: u32,
    codes: &[u64],
    kept: Kept<K>,
) -> ReadItem<K>
    requires fits { Fits coding }
    requires few { count ≤ 33554432 }
    requires some { block * coding.block < count }
    requires last { kept.last ≤ greatest coding }
    requires room { length codes.now + skipped (has_reference coding block) ≡ coding.block }
    requires reference { HasReference coding (has_reference coding block) head.reference }
    ensures { (item : Item) → IsOfKind coding (skipped (has_reference coding block)) head.kind item codes.now
        → let coded = coded_of head.reference item in MatchResult result.blocks
        (λ blocks. ItemPassed K.kept coding count block coded kept.last kept.keeper blocks result.kept.last result.kept.keeper)
        (λ fault. (item_fault coding count block coded ≡ Some fault) × (result.kept ≡ kept)) }
{
    let place = block % u32::from(coding.interval);
    let blocks = blocks_covered(coding, place, head.kind);
    if blocks > u64::from(u32::from(coding.interval) - place) {
        return faulty(BlockFault::Block(block + 1), kept);
    }
    let blocks = blocks as u32;
    let values = values_shown(coding, count, block, blocks, head.reference);
    match head.kind {
        Kind::Zeros(_) => {
            let kept = keep_zero_blocks(kept, coding, head.reference, values);
            ReadItem {
                blocks: Ok(blocks),
                kept,
            }
        }
        Kind::Codes => take_codes(
            head.reference,
            coding,
            block,
            &codes[..values as usize],
            kept,
        ),
        Kind::Long => faulty(BlockFault::Block(block + 1), kept),
    }
}

/// An item at fault, of which nothing was kept.
fn faulty<K>(fault: BlockFault, kept: Kept<K>) -> ReadItem<K>
    ensures { result ≡ record { blocks = Err fault; kept = kept } }
{
    ReadItem {
        blocks: Err(fault),
        kept,
    }
}

/// Takes the codes of a block that are of values, after a reference, if there is one.
fn take_codes<K: Keeper>(
    reference: Option<u32>,
    coding: Coding,
    block: u32,
    codes: &[u64],
    kept: Kept<K>,
) -> ReadItem<K>
    requires fits { Fits coding }
    requires few { length codes.now ≤ 64 }
    requires some { block * coding.block < 33554432 }
    requires last { kept.last ≤ greatest coding }
    requires reference { IsWithin coding reference }
    ensures { MatchResult result.blocks
        (λ blocks. (blocks ≡ 1) × (position (λ code. nat_lt (greatest coding) code) codes.now ≡ None) × ((place : ℕ) → StandsAt coding place reference
        → NoReference coding (place + length (reference_entries reference)) (length codes.now)
        → IsKept K.kept coding place kept.last (reference_entries reference ++ map Code codes.now) kept.keeper result.kept.last result.kept.keeper))
        (λ fault. (place : ℕ) × (position (λ code. nat_lt (greatest coding) code) codes.now ≡ Some place)
        × (fault ≡ BlockFault.Value (block * coding.block + length (reference_entries reference) + place + 1)) × (result.kept ≡ kept)) }
{
    if let Some(place) = first_over(codes, coding.greatest()) {
        let before = block * u32::from(coding.block) + u32::from(reference.is_some());
        return faulty(BlockFault::Value(before + place as u32 + 1), kept);
    }
    let kept = keep_block(kept, coding, reference, codes);
    ReadItem {
        blocks: Ok(1),
        kept,
    }
}

/// How many codes of an item are of values, where it covers so many blocks and may have a reference.
fn values_shown(coding: Coding, count: u32, block: u32, blocks: u32, reference: Option<u32>) -> u32
    requires fits { Fits coding }
    requires few { count ≤ 33554432 }
    requires some { block * coding.block < count }
    requires blocks { 1 ≤ blocks }
    requires most { blocks ≤ 4096 }
    ensures { result ≡ min (coding.block * blocks) (count - block * coding.block) - length (reference_entries reference) }
{
    let values = u32::from(coding.block) * blocks;
    let left = count - block * u32::from(coding.block);
    values.min(left) - u32::from(reference.is_some())
}

/// How many blocks an item covers whose first one has this place in its interval.
fn blocks_covered(coding: Coding, place: u32, kind: Kind) -> u64
    requires { place < coding.interval }
    ensures some { 1 ≤ result }
    ensures one { kind ≡ Kind.Codes → result ≡ 1 }
    ensures covered { (item : Item) (skip : ℕ) (codes : List ℕ) → IsOfKind coding skip kind item codes → result ≡ covered coding place item }
{
    match kind {
        Kind::Zeros(4) => u64::from((u32::from(coding.interval) - place).min(64 - place % 64)),
        Kind::Zeros(number) if number < 4 => number + 1,
        Kind::Zeros(number) => number,
        Kind::Codes | Kind::Long => 1,
    }
}

/// The place of the first code that is over the greatest number.
fn first_over(codes: &[u64], most: u32) -> Option<usize>
    ensures { result ≡ position (λ code. nat_lt most code) codes.now }
{
    let most = u64::from(most);
    codes.iter().position(|code| *code > most)
}
