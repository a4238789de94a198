//! Codes that are the same, one after another.

ghost use Rattle.std.specs.Prelude.{◌≡◌, ℕ, ◌+◌, ◌*◌, ◌^◌, ◌<◌, ◌≤◌, true, nat_abs};
ghost use Rattle.grib_packing.specs.Differences.{is_beyond};
ghost use Rattle.grib_complex_reading.specs.Reach.{reach_of};
ghost use Rattle.grib_complex_reading.specs.Running.{next_of};
ghost use Rattle.grib_complex_reading.specs.Same.{StaysWithin, after_same, moved_by, number_after as number_after_same};

use crate::running::{Running, ScaledRange};
use crate::steady::reach;

impl Running {
    /// Goes on by `count` codes that are all this one, or up to the first that leads to a number outside plus and
    /// minus 2^60. Returns by how many. It takes few steps, however many codes there are.
    pub fn push_same(&mut self, code: u64, count: u32) -> u32
        requires { code < 2 ^ 49 }
        ensures most { result ≤ count }
        ensures after { self.new ≡ after_same self.old code result }
        ensures within { StaysWithin self.old code result }
        ensures beyond { result < count → is_beyond (next_of self.new code) ≡ true }
    {
        let mut done = 0;
        while done < count {
            let more = self.push_some(code, count - done);
            if more == 0 {
                return done;
            }
            done += more;
        }
        done
    }

    /// Goes on by some of the next codes, at most this many: by none only where the first leads out of the range.
    fn push_some(&mut self, code: u64, most: u32) -> u32
        requires code { code < 2 ^ 49 }
        requires some { 1 ≤ most }
        ensures most { result ≤ most }
        ensures after { self.new ≡ after_same self.old code result }
        ensures within { StaysWithin self.old code result }
        ensures beyond { result ≡ 0 → is_beyond (next_of self.new code) ≡ true }
    {
        if self.told < self.order {
            return self.push_one(code);
        }
        let difference = code as i64 + self.minimum;
        let steps = steps_within(self.order, self.before, self.last, difference, most);
        if steps == 0 {
            return self.push_one(code);
        }
        let before = after_steps(self.order, self.before, self.last, difference, steps - 1);
        self.last = after_steps(self.order, self.before, self.last, difference, steps);
        self.before = before;
        steps
    }

    /// Goes on by the next code, if it does not lead out of the range.
    fn push_one(&mut self, code: u64) -> u32
        requires code { code < 2 ^ 49 }
        ensures most { result ≤ 1 }
        ensures after { self.new ≡ after_same self.old code result }
        ensures within { StaysWithin self.old code result }
        ensures beyond { result ≡ 0 → is_beyond (next_of self.new code) ≡ true }
    {
        match self.push(code) {
            Ok(_number) => 1,
            Err(ScaledRange) => 0,
        }
    }
}

/// By how many of `most` differences that are all this one no number can be out of range: by none where that is
/// not clear.
fn steps_within(order: u64, before: i64, last: i64, difference: i64, most: u32) -> u32
    requires before { nat_abs before ≤ 2 ^ 60 }
    requires last { nat_abs last ≤ 2 ^ 60 }
    requires difference { nat_abs difference ≤ 2 ^ 50 }
    ensures most { result ≤ most }
    ensures near { reach_of order before last (nat_abs difference) result ≤ 2 ^ 60 }
{
    let size = difference.unsigned_abs();
    for halvings in 0..32u32 {
        let steps = most >> halvings;
        if is_near(order, before, last, size, steps) {
            return steps;
        }
    }
    0
}

/// Whether this many differences of at most this size lead to no number out of range.
fn is_near(order: u64, before: i64, last: i64, size: u64, count: u32) -> bool
    requires before { nat_abs before ≤ 2 ^ 60 }
    requires last { nat_abs last ≤ 2 ^ 60 }
    ensures { result ≡ true → reach_of order before last size count ≤ 2 ^ 60 }
{
    match reach(order, before, last, size, count) {
        Some(reach) => reach <= 1 << 60,
        None => false,
    }
}

/// The number after these two by this many differences that are all this one.
fn after_steps(order: u64, before: i64, last: i64, difference: i64, count: u32) -> i64
    requires before { nat_abs before ≤ 2 ^ 60 }
    requires near { reach_of order before last (nat_abs difference) count ≤ 2 ^ 60 }
    ensures number { result ≡ number_after_same order before last difference count }
    ensures near { nat_abs result ≤ 2 ^ 60 }
{
    if order == 1 {
        moved(last, difference, 0, count)
    } else {
        moved(last, last - before, difference, count)
    }
}

/// The number after this many steps, the first of which is longer than this one by one growth, and each further one
/// by one more.
fn moved(last: i64, step: i64, growth: i64, count: u32) -> i64
    requires near { nat_abs last + count * (nat_abs step + count * nat_abs growth) ≤ 2 ^ 60 }
    ensures number { result ≡ moved_by last step growth count }
    ensures near { nat_abs result ≤ 2 ^ 60 }
{
    let times = i64::from(count);
    let count = u64::from(count);
    let pairs = (count * (count + 1) / 2) as i64;
    last + times * step + pairs * growth
}
