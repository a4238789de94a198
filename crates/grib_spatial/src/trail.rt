//! The differences of numbers that come one after another, of which no list is kept.

ghost use Rattle.std.specs.Prelude.{◌≡◌, ℕ, ◌+◌, ◌-◌, ◌^◌, ◌<◌, ◌≤◌, List as Numbers, map, ℤ, pos, nat_abs, get_or, length};
ghost use Rattle.std.specs.List.{range_with_len};
ghost use Rattle.grib_packing.specs.Differences.{difference_at, differences, least, descriptors_of, code_at};
ghost use Rattle.grib_spatial.specs.Undoing.{read_with};
ghost use Rattle.grib_complex_reading.specs.Order.{IsOrder};
ghost use Rattle.grib_spatial.specs.Trail.{IsTrail, IsNear, IsToldBy};

use crate::differences::Differences;
use crate::differencing::{lesser_of, second_difference};
use grib_base::List;
use std::alloc::Global;

/// How many numbers came, and the last two of them.
#[derive(Clone, Copy, Debug)]
pub struct Trail {
    pub count: u32,
    before: i64,
    last: i64,
}

impl Trail {
    /// Before the first number.
    pub fn none() -> Trail
        ensures count { result.count ≡ 0 }
        ensures near { IsNear result }
        ensures is { (numbers : Numbers ℤ) → IsTrail result numbers }
    {
        Trail {
            count: 0,
            before: 0,
            last: 0,
        }
    }

    /// After this number.
    #[inline]
    pub fn and(self, x: i64) -> Trail
        requires few { self.count < 2 ^ 32 - 1 }
        requires near { IsNear self }
        requires small { nat_abs x ≤ 2 ^ 60 }
        ensures count { result.count ≡ self.count + 1 }
        ensures near { IsNear result }
        ensures is { (numbers : Numbers ℤ) → IsTrail self numbers → get_or numbers self.count (pos 0) ≡ x → IsTrail result numbers }
    {
        Trail {
            count: self.count + 1,
            before: self.last,
            last: x,
        }
    }

    /// The difference of the next number with those before it.
    #[inline]
    fn difference(self, order: u8, x: i64) -> i64
        requires order { IsOrder order }
        requires enough { order ≤ self.count }
        requires near { IsNear self }
        requires number { nat_abs x ≤ 2 ^ 60 }
        ensures is { (numbers : Numbers ℤ) → IsTrail self numbers → get_or numbers self.count (pos 0) ≡ x
            → result ≡ difference_at order numbers self.count }
        ensures small { nat_abs result ≤ 2 ^ 62 }
    {
        if order == 1 {
            x - self.last
        } else {
            second_difference(self.before, self.last, x)
        }
    }

    /// How far the difference of the next number is above the minimum, and 0 for the first `order` numbers.
    #[inline]
    pub fn code(self, order: u8, x: i64, minimum: i64) -> u64
        requires order { IsOrder order }
        requires near { IsNear self }
        requires small { nat_abs x ≤ 2 ^ 60 }
        ensures { (numbers : Numbers ℤ) → IsTrail self numbers → get_or numbers self.count (pos 0) ≡ x
            → minimum ≡ least (differences order numbers) → result ≡ code_at order numbers self.count }
    {
        if self.count < u32::from(order) {
            return 0;
        }
        self.difference(order, x).abs_diff(minimum)
    }
}

/// What tells the differences of the numbers that came.
#[derive(Clone, Copy, Debug)]
pub struct FirstAndLeast {
    pub trail: Trail,
    first: i64,
    second: i64,
    minimum: i64,
}

impl FirstAndLeast {
    /// Before the first number.
    pub fn none() -> FirstAndLeast
        ensures count { result.trail.count ≡ 0 }
        ensures near { IsNear result.trail }
        ensures told { (order : ℕ) (numbers : Numbers ℤ) → IsToldBy order result numbers }
    {
        FirstAndLeast {
            trail: Trail::none(),
            first: 0,
            second: 0,
            minimum: 0,
        }
    }

    /// After this number.
    #[inline]
    pub fn and(self, order: u8, x: i64) -> FirstAndLeast
        requires order { IsOrder order }
        requires few { self.trail.count < 2 ^ 32 - 1 }
        requires near { IsNear self.trail }
        requires small { nat_abs x ≤ 2 ^ 60 }
        ensures count { result.trail.count ≡ self.trail.count + 1 }
        ensures near { IsNear result.trail }
        ensures told { (numbers : Numbers ℤ) → IsToldBy order self numbers → get_or numbers self.trail.count (pos 0) ≡ x
            → IsToldBy order result numbers }
    {
        FirstAndLeast {
            trail: self.trail.and(x),
            first: self.first_with(x),
            second: self.second_with(order, x),
            minimum: self.least(order, x),
        }
    }

    /// The first number, with this one.
    #[inline]
    fn first_with(self, x: i64) -> i64
        ensures here { self.trail.count ≡ 0 → result ≡ x }
        ensures later { 1 ≤ self.trail.count → result ≡ self.first }
    {
        if self.trail.count == 0 { x } else { self.first }
    }

    /// The second number, for differences of order 2, with this one.
    #[inline]
    fn second_with(self, order: u8, x: i64) -> i64
        ensures here { self.trail.count ≡ 1 → order ≡ 2 → result ≡ x }
        ensures later { (self.trail.count ≡ 1 → order ≡ 1) → result ≡ self.second }
    {
        if order == 2 && self.trail.count == 1 {
            return x;
        }
        self.second
    }

    /// The least difference with this number.
    #[inline]
    fn least(self, order: u8, x: i64) -> i64
        requires order { IsOrder order }
        requires near { IsNear self.trail }
        requires small { nat_abs x ≤ 2 ^ 60 }
        ensures { (numbers : Numbers ℤ) → IsToldBy order self numbers → get_or numbers self.trail.count (pos 0) ≡ x
            → result ≡ least (map (difference_at order numbers) (range_with_len order (self.trail.count + 1 - order))) }
    {
        if self.trail.count < u32::from(order) {
            return 0;
        }
        let difference = self.trail.difference(order, x);
        if self.trail.count == u32::from(order) {
            return difference;
        }
        lesser_of(self.minimum, difference)
    }

    /// What tells them, without their codes.
    pub fn differences(self, alloc: Global) -> Differences
        ensures { (order : ℕ) (numbers : Numbers ℤ) → IsToldBy order self numbers → self.trail.count ≡ length numbers
            → read_with order result ≡ descriptors_of order numbers }
    {
        Differences {
            first: self.first,
            second: self.second,
            minimum: self.minimum,
            codes: List::of(Vec::new(alloc)),
        }
    }
}
