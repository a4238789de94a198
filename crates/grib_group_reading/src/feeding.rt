//! Packed numbers that come in pieces.

ghost use Rattle.std.specs.Prelude.{◌≡◌, ℕ, ◌+◌, ◌*◌, ◌^◌, ◌<◌, ◌≤◌, List, [], ◌++◌, length, drop};
ghost use Rattle.grib_bits.specs.Bits.{bits as bits_in};
ghost use Rattle.grib_packing.specs.declared.group.Group.{Group as group_of_numbers};
ghost use Rattle.grib_packing.specs.declared.layout.Layout.{Layout as layout_of_numbers};
ghost use Rattle.grib_packing.specs.Groups.{codes_from, packed_bits};
ghost use Rattle.grib_group_reading.specs.Taking.{values};
ghost use Rattle.grib_group_reading.specs.Table.{groups_in, IsWhole, IsNarrow};
ghost use Rattle.grib_group_reading.specs.Feeding.{HasRoom, IsCaughtUp, IsFeedable, IsList, WasFed, no_marks, plain_groups, part};

use crate::lists::plain_layout;
use crate::numbers::Numbers;
use crate::{RunTaker, Table};
use grib_packing::{Group, Layout};
use std::alloc::Global;

/// Packed numbers, as their octets come, and what takes their codes.
#[derive(Debug, Drop)]
pub struct Fed<T> {
    layout: Layout,
    table: Table,
    numbers: Numbers,
    taker: T,
}

impl<T: RunTaker> Fed<T> {
    /// The numbers of all groups of a table, of which no octet came yet.
    pub fn groups(layout: Layout, table: Table, taker: T) -> Fed<T>
        requires bits { layout.reference_bits ≤ 48 }
        requires whole { IsWhole table }
        requires narrow { IsNarrow table }
        requires limit { 2 ^ 33 ≤ T.Taker.limit }
        ensures feedable { IsFeedable T.Taker.limit result }
        ensures room { (n : ℕ) → T.Taker.room taker (values (groups_in table) + n) → HasRoom T.Taker.room result n }
        ensures table { result.table ≡ table }
        ensures fed { WasFed T.Taker.took layout (groups_in table) taker [] result }
    {
        let nothing = Group {
            reference: 0,
            width: 0,
            count: 0,
        };
        Fed {
            layout,
            table,
            numbers: Numbers::start(nothing),
            taker,
        }
    }

    /// `count` numbers of `bits` bits, none of which is a mark and of which no octet came yet.
    pub fn list(alloc: Global, bits: u8, count: u32, taker: T) -> Fed<T>
        requires width { bits ≤ 48 }
        requires limit { 2 ^ bits ≤ T.Taker.limit }
        ensures feedable { IsFeedable T.Taker.limit result }
        ensures list { IsList bits result }
        ensures table { groups_in result.table ≡ [] }
        ensures room { (n : ℕ) → T.Taker.room taker (count + n) → HasRoom T.Taker.room result n }
        ensures fed { WasFed T.Taker.took no_marks (plain_groups bits count) taker [] result }
    {
        let all = Group {
            reference: 0,
            width: bits,
            count,
        };
        Fed {
            layout: plain_layout(),
            table: Table::empty(alloc),
            numbers: Numbers::start(all),
            taker,
        }
    }

    /// Hands the codes of all numbers on that end in the next octets.
    pub fn push(self, piece: &[u8]) -> Fed<T>
        requires feedable { IsFeedable T.Taker.limit self }
        requires room { HasRoom T.Taker.room self 0 }
        requires short { length piece.now < 2 ^ 32 }
        ensures feedable { IsFeedable T.Taker.limit result }
        ensures room { (n : ℕ) → HasRoom T.Taker.room self n → HasRoom T.Taker.room result n }
        ensures caught_up { IsCaughtUp result }
        ensures list { (width : ℕ) → IsList width self → IsList width result }
        ensures table { result.table ≡ self.table }
        ensures fed { (layout : layout_of_numbers) (groups : List group_of_numbers) (start : _) (octets : List ℕ)
            → WasFed T.Taker.took layout groups start octets self → WasFed T.Taker.took layout groups start (octets ++ piece.now) result }
        ensures took { (layout : layout_of_numbers) (groups : List group_of_numbers) (start : _) (octets : List ℕ)
            → WasFed T.Taker.took layout groups start octets self → packed_bits groups ≤ 8 * length (octets ++ piece.now)
            → T.Taker.took start (codes_from layout groups (bits_in (octets ++ piece.now))) result.taker }
    {
        let Fed {
            layout,
            table,
            mut numbers,
            taker,
        } = self;
        let taker = numbers.push(&layout, &table, piece, taker);
        Fed {
            layout,
            table,
            numbers,
            taker,
        }
    }

    /// What took the codes so far.
    pub fn taker(&self) -> &T
        ensures { result.now ≡ self.now.taker }
    {
        &self.taker
    }

    /// What took the codes, once the octets of all numbers came.
    pub fn finish(self) -> T
        requires feedable { IsFeedable T.Taker.limit self }
        requires room { HasRoom T.Taker.room self 0 }
        ensures room { (n : ℕ) → HasRoom T.Taker.room self n → T.Taker.room result n }
        ensures took { (layout : layout_of_numbers) (groups : List group_of_numbers) (start : _) (octets : List ℕ)
            → WasFed T.Taker.took layout groups start octets self → packed_bits groups ≤ 8 * length octets
            → T.Taker.took start (codes_from layout groups (bits_in octets)) result }
    {
        let Fed {
            layout,
            table,
            mut numbers,
            taker,
        } = self;
        numbers.push(&layout, &table, &[], taker)
    }
}

/// The octets of a piece that belong to a part of a section, which has `size` octets after the first
/// `from`, where `before` octets of the section came before the piece.
pub fn part_of(piece: &[u8], before: u64, from: u64, size: u64) -> &[u8]
    requires short { length piece.now < 2 ^ 32 }
    requires end { from + size < 2 ^ 63 }
    ensures part { (octets : List ℕ) → length octets ≡ before → part from size (octets ++ piece.now) ≡ part from size octets ++ result.now }
    ensures short { length result.now ≤ length piece.now }
{
    let length = piece.len() as u64;
    let first = from.saturating_sub(before).min(length);
    let last = (from + size).saturating_sub(before).min(length);
    &piece[first as usize..last as usize]
}

/// The octets of a piece that stand after the first `from` octets of a section, where `before` octets of the
/// section came before the piece.
pub fn rest_of(piece: &[u8], before: u64, from: u64) -> &[u8]
    ensures rest { (octets : List ℕ) → length octets ≡ before → drop from (octets ++ piece.now) ≡ drop from octets ++ result.now }
    ensures short { length result.now ≤ length piece.now }
{
    let first = from.saturating_sub(before).min(piece.len() as u64);
    &piece[first as usize..]
}
