//! The numbers of the extra descriptors of spatial differencing, as they are read.

ghost use Rattle.std.specs.Prelude.{◌≡◌, ◌⊎◌, ◌==◌, cond, get_or, pos, ℕ, ◌+◌, ◌-◌, ◌*◌, ◌/◌, ◌^◌, ◌<◌, ◌≤◌, All, false, length, nat_abs};
ghost use Rattle.grib_bits.specs.Bits.{bits_of, signed};
ghost use Rattle.grib_complex_reading.specs.Tells.{telling_of};
ghost use Rattle.grib_complex_reading.specs.Descriptors.{AreTold, is_signed_number, sign_fault, telling_told};

use crate::Running;
use crate::representation::Complex;
use grib_base::{Fault, Reason};
use grib_bits::signed_of;

/// What the codes of a field are undone with.
#[derive(Clone, Copy, Debug)]
pub(crate) struct Told {
    pub order: u8,
    pub first: i64,
    /// 0 for order 1.
    pub second: i64,
    pub minimum: i64,
}

impl Told {
    /// Of the numbers of all descriptors, `extra` octets each, as they stand in Section 7. No first value has its
    /// top bit set.
    pub fn of(numbers: &[u32], order: u8, extra: u8) -> Told
        requires order { order ≤ 2 }
        requires extra { extra ≤ 4 }
        requires plain { order ≡ 0 → extra ≡ 0 }
        requires all { length numbers.now ≡ order + 1 }
        requires small { All (λ n. n < 2 ^ (8 * extra)) numbers.now }
        requires first { is_signed_number order extra numbers.now 0 ≡ false }
        requires second { is_signed_number order extra numbers.now 1 ≡ false }
        ensures { AreTold order extra numbers.now result }
    {
        Told {
            order,
            first: first_value_of(numbers, order, extra, 0),
            second: second_value_of(numbers, order, extra),
            minimum: minimum_of(numbers[usize::from(order)], extra),
        }
    }

    /// What undoes the differences, where there are any.
    pub fn running(&self) -> Running
        requires order { (self.now.order ≡ 1) ⊎ (self.now.order ≡ 2) }
        requires first { nat_abs self.now.first ≤ 2 ^ 31 }
        requires second { nat_abs self.now.second ≤ 2 ^ 31 }
        requires minimum { nat_abs self.now.minimum ≤ 2 ^ 31 }
        ensures { telling_of result ≡ telling_told self.now }
    {
        Running::new(self.order, self.first, self.second, self.minimum)
    }
}

/// A first value, counted from 0. Where there are none, the descriptors have no octets.
fn first_value_of(numbers: &[u32], order: u8, extra: u8, index: u8) -> i64
    requires extra { extra ≤ 4 }
    requires among { index < length numbers.now }
    requires below { (index < order) ⊎ (extra ≡ 0) }
    requires small { All (λ n. n < 2 ^ (8 * extra)) numbers.now }
    requires natural { is_signed_number order extra numbers.now index ≡ false }
    ensures value { result ≡ pos (get_or numbers.now index 0) }
    ensures small { nat_abs result ≤ 2 ^ 31 }
{
    i64::from(numbers[usize::from(index)])
}

/// The second first value, and 0 where there is none.
fn second_value_of(numbers: &[u32], order: u8, extra: u8) -> i64
    requires order { order ≤ 2 }
    requires extra { extra ≤ 4 }
    requires all { length numbers.now ≡ order + 1 }
    requires small { All (λ n. n < 2 ^ (8 * extra)) numbers.now }
    requires natural { is_signed_number order extra numbers.now 1 ≡ false }
    ensures value { result ≡ cond (order == 2) (pos (get_or numbers.now 1 0)) (pos 0) }
    ensures small { nat_abs result ≤ 2 ^ 31 }
{
    if order < 2 {
        return 0;
    }
    first_value_of(numbers, order, extra, 1)
}

/// The overall minimum, whose sign stands in the first bit of its `extra` octets.
fn minimum_of(number: u32, extra: u8) -> i64
    requires extra { extra ≤ 4 }
    requires small { number < 2 ^ (8 * extra) }
    ensures value { result ≡ signed (bits_of (8 * extra) number) }
    ensures small { nat_abs result ≤ 2 ^ 31 }
{
    if extra == 0 {
        return 0;
    }
    signed_of(u64::from(number), 8 * u32::from(extra))
}

/// The refusal of a Section 7 that begins at octet `start` of the message, for the first of its first values so
/// far whose top bit is set.
pub(crate) fn signed_fault(numbers: &[u32], complex: &Complex, start: u64) -> Option<Fault>
    requires extra { complex.now.extra ≤ 4 }
    requires low { 1 ≤ start }
    requires high { start ≤ 268435456 }
    ensures { result ≡ sign_fault start complex.now.order complex.now.extra numbers.now }
{
    let extra = complex.extra;
    if is_signed(numbers, complex.order, extra, 0) {
        return Some(Fault::at(start + 5, Reason::FirstValueSign, 1));
    }
    if is_signed(numbers, complex.order, extra, 1) {
        return Some(Fault::at(start + 5 + u64::from(extra), Reason::FirstValueSign, 2));
    }
    None
}

/// Whether there is such a first value so far with its top bit set, counted from 0.
fn is_signed(numbers: &[u32], order: u8, extra: u8, index: u8) -> bool
    requires index { index ≤ 1 }
    requires extra { extra ≤ 4 }
    ensures { result ≡ is_signed_number order extra numbers.now index }
{
    if usize::from(index) >= numbers.len() || index >= order || extra == 0 {
        return false;
    }
    numbers[usize::from(index)] >> (8 * u32::from(extra) - 8) > 127
}
