//! Numbers that cannot leave the range for a while.

ghost use Rattle.std.specs.Prelude.{◌≡◌, ℕ, ◌+◌, ◌*◌, ◌^◌, ◌<◌, ◌≤◌, true, false, nat_abs, ◌-ℤ◌, IfSome};
ghost use Rattle.grib_packing.specs.Differences.{One, Two, is_beyond};
ghost use Rattle.grib_complex_reading.specs.Running.{next_of, after_code};
ghost use Rattle.grib_complex_reading.specs.Reach.{reach_by, reach_of, IsSteady};

use crate::running::{Running, number_after};
use std::marker::Model;

/// Undoes spatial differences as [`Running`] does, where the first values were told, and a number of
/// further codes below a limit can lead to no number outside plus and minus 2^60: no number has to be tested.
#[derive(Debug, Drop)]
pub struct Steady {
    order: u64,
    first: i64,
    second: i64,
    minimum: i64,
    /// The last number but one, and the last one.
    before: i64,
    last: i64,
    /// How many codes may follow.
    left: u32,
    limit: u64,
}

impl Model for Steady {
    ghost use Rattle.std.specs.Prelude.{◌≡◌, ◌+◌, ◌^◌, ◌≤◌, nat_abs};
    ghost use Rattle.grib_packing.specs.Differences.{Descriptors, NoNumber, One, Two};
    ghost use Rattle.grib_complex_reading.specs.Running.{Run, SteadyRun};
    ghost use Rattle.grib_complex_reading.specs.Order.{IsOrder};
    ghost use Rattle.grib_complex_reading.specs.Follows.{last_of};
    ghost use Rattle.grib_complex_reading.specs.Reach.{reach_of};

    ghost Value = { SteadyRun };

    ghost view = { λ s. record {
      run = record {
        told = record { order = s.order; first = s.first; second = s.second; minimum = s.minimum };
        last = last_of s.order s.before s.last;
      };
      left = s.left;
      limit = s.limit;
    } };

    ghost invariant = { λ s. IsOrder s.order
        × (nat_abs s.first ≤ 2 ^ 31) × (nat_abs s.second ≤ 2 ^ 31) × (nat_abs s.minimum ≤ 2 ^ 31)
        × (s.limit ≤ 2 ^ 49) × (nat_abs s.before ≤ 2 ^ 60)
        × (reach_of s.order s.before s.last (s.limit + nat_abs s.minimum) s.left ≤ 2 ^ 60) };
}

impl Running {
    /// Whether all first values were told and `count` codes below `limit` can lead to no number outside
    /// plus and minus 2^60.
    #[inline(always)]
    pub fn is_steady(&self, count: u32, limit: u64) -> bool
        requires { limit ≤ 2 ^ 49 }
        ensures { result ≡ true → IsSteady self.now count limit }
    {
        if self.told < self.order {
            return false;
        }
        let size = limit + self.minimum.unsigned_abs();
        match reach(self.order, self.before, self.last, size, count) {
            Some(reach) => reach <= 1 << 60,
            None => false,
        }
    }

    /// Goes on with `count` codes below `limit`.
    #[inline(always)]
    pub fn into_steady(self, count: u32, limit: u64) -> Steady
        requires limit { limit ≤ 2 ^ 49 }
        requires steady { IsSteady self count limit }
        ensures run { result.run ≡ self }
        ensures left { result.left ≡ count }
        ensures limit { result.limit ≡ limit }
    {
        Steady {
            order: self.order,
            first: self.first,
            second: self.second,
            minimum: self.minimum,
            before: self.before,
            last: self.last,
            left: count,
            limit,
        }
    }
}

impl Steady {
    /// The next number, by its code.
    #[inline(always)]
    pub fn push(&mut self, code: u64) -> i64
        requires some { 1 ≤ self.old.left }
        requires code { code < self.old.limit }
        ensures number { result ≡ next_of self.old.run code }
        ensures within { is_beyond (next_of self.old.run code) ≡ false }
        ensures after { self.new.run ≡ after_code self.old.run code }
        ensures left { self.new.left + 1 ≡ self.old.left }
        ensures limit { self.new.limit ≡ self.old.limit }
    {
        let number = number_after(self.order, self.minimum, self.before, self.last, code);
        self.before = self.last;
        self.last = number;
        self.left -= 1;
        number
    }

    /// The run, as it stands.
    #[inline(always)]
    pub fn into_running(self) -> Running
        ensures { result ≡ self.run }
    {
        Running {
            order: self.order,
            first: self.first,
            second: self.second,
            minimum: self.minimum,
            told: self.order,
            before: self.before,
            last: self.last,
        }
    }
}

/// How far from 0 numbers can come after these two, by `count` differences of at most this size. `None`
/// beyond 2^64 - 1.
#[inline]
pub(crate) fn reach(order: u64, before: i64, last: i64, size: u64, count: u32) -> Option<u64>
    requires before { nat_abs before ≤ 2 ^ 60 }
    requires last { nat_abs last ≤ 2 ^ 60 }
    ensures { IfSome result (λ reach. reach ≡ reach_of order before last size count) }
{
    let count = u64::from(count);
    if order == 1 {
        return reach_by_steps(last, size, count);
    }
    let step = count.checked_mul(size)?.checked_add(last.abs_diff(before))?;
    reach_by_steps(last, step, count)
}

/// How far from 0 numbers can come after this one, by `count` steps. `None` beyond 2^64 - 1.
#[inline]
fn reach_by_steps(last: i64, step: u64, count: u64) -> Option<u64>
    ensures { IfSome result (λ reach. reach ≡ reach_by last step count) }
{
    count.checked_mul(step)?.checked_add(last.unsigned_abs())
}
