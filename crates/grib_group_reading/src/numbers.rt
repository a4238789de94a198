//! The packed numbers of groups, as their octets come.

ghost use Rattle.std.specs.Prelude.{◌≡◌, ◌⊎◌, ℕ, ◌+◌, ◌-◌, ◌*◌, ◌^◌, ◌<◌, ◌≤◌, List, [], ◌++◌, length, drop, vec_len};
ghost use Rattle.grib_bits.specs.Bits.{bits as bits_in};
ghost use Rattle.grib_group_reading.specs.Taking.{values};
ghost use Rattle.grib_group_reading.specs.Table.{groups_in};
ghost use Rattle.grib_group_reading.specs.Going.{left_of, CanRead, IsReadable, IsReadTo, IsShort, IsReady, Went};

use crate::coding::Coding;
use crate::run::{take_at_once, take_numbers};
use crate::{RunTaker, Table};
use grib_bits::{BitWindow, get_bits};
use grib_packing::{Group, Layout};

/// The packed numbers that are still to come: what is left of the current group, the index of the
/// next one, and the bits that came already of the next number.
#[derive(Debug, Drop)]
pub(crate) struct Numbers {
    current: Group,
    next: usize,
    pending: BitWindow,
}

impl Numbers {
    /// The numbers of all groups of a table, after those of `first`.
    pub(crate) fn start(first: Group) -> Numbers
        requires { first.width ≤ 48 }
        ensures current { result.current ≡ first }
        ensures next { result.next ≡ 0 }
        ensures pending { result.pending ≡ [] }
    {
        Numbers {
            current: first,
            next: 0,
            pending: BitWindow::new(),
        }
    }

    /// Hands the codes of all numbers on that end in the next octets.
    pub(crate) fn push<T: RunTaker>(
        &mut self,
        layout: &Layout,
        table: &Table,
        piece: &[u8],
        taker: T,
    ) -> T
        requires read { CanRead T.Taker.limit layout.now table.now piece.now 0 }
        requires room { T.Taker.room taker (values (left_of self.old (groups_in table.now))) }
        requires ready { IsReady T.Taker.limit self.old }
        ensures width { vec_len table.now.lengths ≡ 0 → self.new.current.width ≡ self.old.current.width }
        ensures goes { Went T.Taker.took layout.now (left_of self.old (groups_in table.now)) (self.old.pending ++ bits_in piece.now) taker
            (left_of self.new (groups_in table.now)) self.new.pending result }
        ensures ready { IsReady T.Taker.limit self.new }
        ensures waits { 0 < values (left_of self.new (groups_in table.now)) → IsShort self.new }
    {
        let pending = self.pending.len();
        if pending == 0 {
            return self.take_fitting(layout, table, piece, 0, taker);
        }
        let missing = u32::from(self.current.width) - pending;
        if 8 * (piece.len() as u64) < u64::from(missing) {
            keep(&mut self.pending, piece);
            return taker;
        }
        let taker = self.take_across(layout, piece, missing, taker);
        self.take_fitting(layout, table, piece, u64::from(missing), taker)
    }

    /// Takes the number of which the last `missing` bits begin the next octets.
    fn take_across<T: RunTaker>(
        &mut self,
        layout: &Layout,
        piece: &[u8],
        missing: u32,
        taker: T,
    ) -> T
        requires bits { layout.now.reference_bits ≤ 48 }
        requires readable { IsReadable T.Taker.limit self.old.current }
        requires count { 0 < self.old.current.count }
        requires room { T.Taker.room taker 1 }
        requires missing { length self.old.pending + missing ≡ self.old.current.width }
        requires within { missing ≤ 8 * length piece.now }
        ensures goes { (groups : _) → Went T.Taker.took layout.now (left_of self.old groups) (self.old.pending ++ bits_in piece.now) taker
            (left_of self.new groups) (drop missing (bits_in piece.now)) result }
        ensures current { self.new.current ≡ record self.old.current { count = self.old.current.count - 1 } }
        ensures next { self.new.next ≡ self.old.next }
        ensures pending { self.new.pending ≡ [] }
    {
        let pending = self.pending.len();
        let first = self.pending.take(pending);
        let number = first << missing | get_bits(piece, 0, missing);
        let taker = taker.take(Coding::of(layout, self.current).code(number));
        self.current.count -= 1;
        taker
    }

    /// Takes the numbers that fit into the octets after their first `at` bits, and keeps the bits that
    /// are left.
    fn take_fitting<T: RunTaker>(
        &mut self,
        layout: &Layout,
        table: &Table,
        piece: &[u8],
        mut at: u64,
        mut taker: T,
    ) -> T
        requires read { CanRead T.Taker.limit layout.now table.now piece.now at }
        requires room { T.Taker.room taker (values (left_of self.old (groups_in table.now))) }
        requires readable { IsReadable T.Taker.limit self.old.current }
        requires pending { self.old.pending ≡ [] }
        ensures width { vec_len table.now.lengths ≡ 0 → self.new.current.width ≡ self.old.current.width }
        ensures goes { Went T.Taker.took layout.now (left_of self.old (groups_in table.now)) (drop at (bits_in piece.now)) taker
            (left_of self.new (groups_in table.now)) self.new.pending result }
        ensures ready { IsReady T.Taker.limit self.new }
        ensures waits { 0 < values (left_of self.new (groups_in table.now)) → IsShort self.new }
    {
        taker = self.take_some(layout, piece, &mut at, taker);
        if self.current.count > 0 {
            keep_rest(&mut self.pending, piece, at);
            return taker;
        }
        self.take_next_groups(layout, table, piece, at, taker)
    }

    /// Takes the numbers of the next groups that fit, and keeps the bits that are left. Nothing is left of the
    /// current group.
    fn take_next_groups<T: RunTaker>(
        &mut self,
        layout: &Layout,
        table: &Table,
        piece: &[u8],
        mut at: u64,
        mut taker: T,
    ) -> T
        requires read { CanRead T.Taker.limit layout.now table.now piece.now at }
        requires room { T.Taker.room taker (values (left_of self.old (groups_in table.now))) }
        requires readable { IsReadable T.Taker.limit self.old.current }
        requires none { self.old.current.count ≡ 0 }
        requires pending { self.old.pending ≡ [] }
        ensures width { vec_len table.now.lengths ≡ 0 → self.new.current.width ≡ self.old.current.width }
        ensures goes { Went T.Taker.took layout.now (left_of self.old (groups_in table.now)) (drop at (bits_in piece.now)) taker
            (left_of self.new (groups_in table.now)) self.new.pending result }
        ensures ready { IsReady T.Taker.limit self.new }
        ensures waits { 0 < values (left_of self.new (groups_in table.now)) → IsShort self.new }
    {
        while self.current.count == 0 && self.next < table.len() {
            taker = self.take_ready_groups(layout, table, piece, &mut at, taker);
            taker = self.take_next_group(layout, table, piece, &mut at, taker);
        }
        if self.current.count == 0 {
            return taker;
        }
        keep_rest(&mut self.pending, piece, at);
        taker
    }

    /// Takes the numbers of the next group that fit, if there is one. Nothing is left of the current one.
    fn take_next_group<T: RunTaker>(
        &mut self,
        layout: &Layout,
        table: &Table,
        piece: &[u8],
        at: &mut u64,
        taker: T,
    ) -> T
        requires read { CanRead T.Taker.limit layout.now table.now piece.now at.old }
        requires room { T.Taker.room taker (values (left_of self.old (groups_in table.now))) }
        requires readable { IsReadable T.Taker.limit self.old.current }
        requires none { self.old.current.count ≡ 0 }
        ensures goes { Went T.Taker.took layout.now (left_of self.old (groups_in table.now)) (drop at.old (bits_in piece.now)) taker
            (left_of self.new (groups_in table.now)) (drop at.new (bits_in piece.now)) result }
        ensures to { IsReadTo T.Taker.limit piece.now self.old self.new at.new }
        ensures next { self.new.next ≡ self.old.next + 1 ⊎ vec_len table.now.lengths ≤ self.new.next }
    {
        if self.next >= table.len() {
            return taker;
        }
        self.current = table.group(self.next);
        self.next += 1;
        self.take_some(layout, piece, at, taker)
    }

    /// Takes the next groups at once, as long as what takes the codes is ready for each, and each number of a
    /// group begins where eight octets are left. Nothing is left of the current group. It is not inlined, so
    /// that what takes the codes stays in registers from one group to the next.
    #[inline(never)]
    fn take_ready_groups<T: RunTaker>(
        &mut self,
        layout: &Layout,
        table: &Table,
        piece: &[u8],
        at: &mut u64,
        mut taker: T,
    ) -> T
        requires read { CanRead T.Taker.limit layout.now table.now piece.now at.old }
        requires room { T.Taker.room taker (values (left_of self.old (groups_in table.now))) }
        requires none { self.old.current.count ≡ 0 }
        ensures goes { Went T.Taker.took layout.now (left_of self.old (groups_in table.now)) (drop at.old (bits_in piece.now)) taker
            (left_of self.new (groups_in table.now)) (drop at.new (bits_in piece.now)) result }
        ensures current { self.new.current ≡ self.old.current }
        ensures next { self.old.next ≤ self.new.next }
        ensures pending { self.new.pending ≡ self.old.pending }
        ensures within { at.new ≤ 8 * length piece.now }
    {
        let bits = 8 * piece.len() as u64;
        while self.next < table.len() {
            let group = table.group(self.next);
            let end = *at + u64::from(group.count) * u64::from(group.width);
            if bits < end + 64 {
                break;
            }
            if !taker.is_ready(group.count, limit_of(group)) {
                break;
            }
            taker = take_at_once(layout, group, piece, *at, taker);
            *at = end;
            self.next += 1;
        }
        taker
    }

    /// Takes the numbers of the current group that fit.
    #[inline(always)]
    fn take_some<T: RunTaker>(&mut self, layout: &Layout, piece: &[u8], at: &mut u64, taker: T) -> T
        requires bits { layout.now.reference_bits ≤ 48 }
        requires short { length piece.now < 2 ^ 32 }
        requires readable { IsReadable T.Taker.limit self.old.current }
        requires room { T.Taker.room taker self.old.current.count }
        requires within { at.old ≤ 8 * length piece.now }
        ensures width { self.new.current.width ≡ self.old.current.width }
        ensures goes { (groups : _) → Went T.Taker.took layout.now (left_of self.old groups) (drop at.old (bits_in piece.now)) taker
            (left_of self.new groups) (drop at.new (bits_in piece.now)) result }
        ensures to { IsReadTo T.Taker.limit piece.now self.old self.new at.new }
        ensures next { self.new.next ≡ self.old.next }
    {
        let group = self.current;
        let width = u32::from(group.width);
        let start = *at;
        let count = count_within(8 * piece.len() as u64 - start, width, group.count);
        let taker = take_numbers(layout, group, piece, start, count, taker);
        *at = start + u64::from(count) * u64::from(width);
        self.current.count = group.count - count;
        taker
    }
}

/// What the numbers of the codes of a group are below.
#[inline(always)]
fn limit_of(group: Group) -> u64
    requires { group.width ≤ 48 }
    ensures { result ≡ group.reference + 2 ^ group.width }
{
    u64::from(group.reference) + (1 << group.width)
}

/// How many of `count` numbers have all their bits among the next `bits` ones.
#[inline(always)]
fn count_within(bits: u64, width: u32, count: u32) -> u32
    ensures count { result ≤ count }
    ensures within { result * width ≤ bits }
    ensures no_more { result < count → bits < result * width + width }
{
    if u64::from(count) * u64::from(width) <= bits {
        return count;
    }
    (bits / u64::from(width)) as u32
}

/// Keeps octets behind the bits that are pending.
fn keep(pending: &mut BitWindow, octets: &[u8])
    requires { length pending.old + 8 * length octets.now ≤ 64 }
    ensures { pending.new ≡ pending.old ++ bits_in octets.now }
{
    for octet in octets {
        pending.push(*octet);
    }
}

/// Keeps what follows the first `at` bits of octets.
fn keep_rest(pending: &mut BitWindow, octets: &[u8], at: u64)
    requires empty { pending.old ≡ [] }
    requires within { at ≤ 8 * length octets.now }
    requires short { 8 * length octets.now < at + 48 }
    ensures { pending.new ≡ drop at (bits_in octets.now) }
{
    keep(pending, &octets[(at / 8) as usize..]);
    let _before = pending.take((at % 8) as u32);
}
