//! Runs of numbers of one width.

ghost use Rattle.std.specs.Prelude.{◌≡◌, ℕ, ◌+◌, ◌-◌, ◌*◌, ◌/◌, ◌^◌, ◌<◌, ◌≤◌, length, take, drop, map};
ghost use Rattle.grib_bits.specs.Bits.{bits as bits_in, num};
ghost use Rattle.grib_bits.specs.Plain.{plain};
ghost use Rattle.grib_packing.specs.Groups.{code_of};
ghost use Rattle.grib_group_reading.specs.Taking.{code_by};

use crate::code_run::{SameRun, WordRun};
use crate::coding::Coding;
use crate::taker::take_all;
use crate::{RunTaker, Taker};
use grib_bits::get_bits;
use grib_packing::{Group, Layout};

/// Takes `count` numbers of a group, which stand after the first `at` bits of `octets`.
#[inline(always)]
pub(crate) fn take_numbers<T: RunTaker>(
    layout: &Layout,
    group: Group,
    octets: &[u8],
    at: u64,
    count: u32,
    taker: T,
) -> T
    requires width { group.width ≤ 48 }
    requires bits { layout.now.reference_bits ≤ 48 }
    requires limit { group.reference + 2 ^ group.width ≤ T.Taker.limit }
    requires room { T.Taker.room taker count }
    requires short { length octets.now < 2 ^ 32 }
    requires within { at + count * group.width ≤ 8 * length octets.now }
    ensures { T.Taker.took taker (map (code_of layout.now group) (plain (drop at (bits_in octets.now)) group.width count)) result }
{
    let width = u32::from(group.width);
    let coding = Coding::of(layout, group);
    if width == 0 {
        return take_same(coding, count, taker);
    }
    let whole = count_in_words(octets.len() as u64, at, width, count);
    let taker = take_from_words(coding, octets, at, width, whole, taker);
    if whole == count {
        return taker;
    }
    let at = at + u64::from(whole) * u64::from(width);
    take_from_end(coding, octets, at, width, count - whole, taker)
}

/// Takes all numbers of a group at once, each of which begins where eight octets are left.
#[inline(always)]
pub(crate) fn take_at_once<T: RunTaker>(
    layout: &Layout,
    group: Group,
    octets: &[u8],
    at: u64,
    taker: T,
) -> T
    requires width { group.width ≤ 48 }
    requires bits { layout.now.reference_bits ≤ 48 }
    requires limit { group.reference + 2 ^ group.width ≤ T.Taker.limit }
    requires room { T.Taker.room taker group.count }
    requires short { length octets.now < 2 ^ 32 }
    requires within { at + group.count * group.width + 64 ≤ 8 * length octets.now }
    requires ready { T.RunTaker.ready taker group.count (group.reference + 2 ^ group.width) }
    ensures { T.Taker.took taker (map (code_of layout.now group) (plain (drop at (bits_in octets.now)) group.width group.count)) result }
{
    let width = u32::from(group.width);
    let coding = Coding::of(layout, group);
    if width == 0 {
        return same_at_once(coding, group.count, taker);
    }
    words_at_once(coding, octets, at, width, group.count, taker)
}

/// Takes `count` numbers of no bits at once.
#[inline(always)]
fn same_at_once<T: RunTaker>(coding: Coding, count: u32, taker: T) -> T
    requires limit { coding.reference + 1 ≤ T.Taker.limit }
    requires room { T.Taker.room taker count }
    requires reference { coding.reference < 2 ^ 32 }
    requires ready { T.RunTaker.ready taker count (coding.reference + 1) }
    ensures { (xs : _) → T.Taker.took taker (map (code_by coding) (plain xs 0 count)) result }
{
    if taker.is_quick() {
        return taker.take_same(coding.code(0), coding.limit(0), count);
    }
    let run = SameRun::new(coding.code(0), coding.limit(0), count);
    taker.take_run(run)
}

/// Takes `count` numbers from words of eight octets at once.
#[inline(always)]
fn words_at_once<T: RunTaker>(
    coding: Coding,
    octets: &[u8],
    at: u64,
    width: u32,
    count: u32,
    taker: T,
) -> T
    requires some { 1 ≤ width }
    requires width { width ≤ 48 }
    requires limit { coding.reference + 2 ^ width ≤ T.Taker.limit }
    requires room { T.Taker.room taker count }
    requires reference { coding.reference < 2 ^ 32 }
    requires short { length octets.now < 2 ^ 32 }
    requires within { 0 < count → at + count * width + 64 ≤ 8 * length octets.now + width }
    requires ready { T.RunTaker.ready taker count (coding.reference + 2 ^ width) }
    ensures { T.Taker.took taker (map (code_by coding) (plain (drop at (bits_in octets.now)) width count)) result }
{
    let run = WordRun::new(coding, octets, at, width, count);
    taker.take_run(run)
}

/// Takes `count` numbers of no bits.
#[inline(always)]
fn take_same<T: RunTaker>(coding: Coding, count: u32, taker: T) -> T
    requires limit { coding.reference + 1 ≤ T.Taker.limit }
    requires room { T.Taker.room taker count }
    requires reference { coding.reference < 2 ^ 32 }
    ensures { (xs : _) → T.Taker.took taker (map (code_by coding) (plain xs 0 count)) result }
{
    if taker.is_quick() {
        return taker.take_same(coding.code(0), coding.limit(0), count);
    }
    let run = SameRun::new(coding.code(0), coding.limit(0), count);
    take_all(run, taker)
}

/// How many of `count` numbers begin where eight octets are left.
#[inline(always)]
fn count_in_words(length: u64, at: u64, width: u32, count: u32) -> u32
    requires some { 1 ≤ width }
    requires width { width ≤ 48 }
    requires short { length < 2 ^ 32 }
    requires at { at ≤ 8 * length }
    ensures count { result ≤ count }
    ensures within { 0 < result → at + result * width + 64 ≤ 8 * length + width }
{
    let bits = 8 * length;
    if at + u64::from(count) * u64::from(width) + 64 <= bits + u64::from(width) {
        return count;
    }
    if bits < at + 64 {
        return 0;
    }
    u64::from(count).min((bits - at - 64) / u64::from(width) + 1) as u32
}

/// Takes `count` numbers from words of eight octets.
#[inline(always)]
fn take_from_words<T: RunTaker>(
    coding: Coding,
    octets: &[u8],
    at: u64,
    width: u32,
    count: u32,
    taker: T,
) -> T
    requires some { 1 ≤ width }
    requires width { width ≤ 48 }
    requires limit { coding.reference + 2 ^ width ≤ T.Taker.limit }
    requires room { T.Taker.room taker count }
    requires reference { coding.reference < 2 ^ 32 }
    requires short { length octets.now < 2 ^ 32 }
    requires within { 0 < count → at + count * width + 64 ≤ 8 * length octets.now + width }
    ensures { T.Taker.took taker (map (code_by coding) (plain (drop at (bits_in octets.now)) width count)) result }
{
    let run = WordRun::new(coding, octets, at, width, count);
    take_all(run, taker)
}

/// Takes the last `count` numbers of some octets, a few.
fn take_from_end<T: Taker>(
    coding: Coding,
    octets: &[u8],
    at: u64,
    width: u32,
    count: u32,
    mut taker: T,
) -> T
    requires width { width ≤ 48 }
    requires limit { coding.reference + 2 ^ width ≤ T.limit }
    requires room { T.room taker count }
    requires reference { coding.reference < 2 ^ 32 }
    requires short { length octets.now < 2 ^ 32 }
    requires within { at + count * width ≤ 8 * length octets.now }
    ensures { T.took taker (map (code_by coding) (plain (drop at (bits_in octets.now)) width count)) result }
{
    let mut place = at;
    for _index in 0..count {
        let number = get_bits(octets, place, width);
        taker = taker.take(coding.code(number));
        place += u64::from(width);
    }
    taker
}
