//! Numbers that are undone one after another.

ghost use Rattle.std.specs.Prelude.{◌≡◌, ◌^◌, ◌<◌, ◌≤◌, true, false, pos, ◌+ℤ◌, ◌-ℤ◌, ◌*ℤ◌, nat_abs, IfOk, OnOk, OnErr};
ghost use Rattle.grib_packing.specs.Differences.{NoNumber, is_beyond};
ghost use Rattle.grib_complex_reading.specs.Running.{next_of, after_code, number_by};
ghost use Rattle.grib_complex_reading.specs.Order.{IsOrder};

use std::marker::Model;

/// A scaled integer is outside plus and minus 2^60.
#[derive(Clone, Copy, Debug, PartialEq, Eq)]
pub struct ScaledRange;

/// Undoes the spatial differences of a field, a code at a time (WMO-No. 306, Volume I.2, FM 92 GRIB
/// edition 2, data template 7.3). A clause sees what the codes are read with, and the numbers that the
/// next one follows.
#[derive(Debug, Drop)]
pub struct Running {
    /// Of eight octets like the others, so that no octets stand between that moves would copy.
    pub(crate) order: u64,
    pub(crate) first: i64,
    pub(crate) second: i64,
    pub(crate) minimum: i64,
    /// How many first values were told.
    pub(crate) told: u64,
    /// The last number but one, and the last one.
    pub(crate) before: i64,
    pub(crate) last: i64,
}

impl Model for Running {
    ghost use Rattle.std.specs.Prelude.{◌≡◌, ◌^◌, ◌≤◌, nat_abs};
    ghost use Rattle.grib_packing.specs.Differences.{Descriptors, NoNumber, One, Two};
    ghost use Rattle.grib_complex_reading.specs.Running.{Run};
    ghost use Rattle.grib_complex_reading.specs.Order.{IsOrder};
    ghost use Rattle.grib_complex_reading.specs.Follows.{last_of};

    ghost Value = { Run };

    ghost view = { λ r. record {
      told = record { order = r.order; first = r.first; second = r.second; minimum = r.minimum };
      last = last_of r.told r.before r.last;
    } };

    ghost invariant = { λ r. IsOrder r.order
        × (nat_abs r.first ≤ 2 ^ 31) × (nat_abs r.second ≤ 2 ^ 31) × (nat_abs r.minimum ≤ 2 ^ 31)
        × (r.told ≤ r.order) × (nat_abs r.before ≤ 2 ^ 60) × (nat_abs r.last ≤ 2 ^ 60) };
}

impl Running {
    /// A run of no numbers so far, of differences of this order, with these first values and this
    /// overall minimum.
    pub fn new(order: u8, first: i64, second: i64, minimum: i64) -> Running
        requires order { IsOrder order }
        requires first { nat_abs first ≤ 2 ^ 31 }
        requires second { nat_abs second ≤ 2 ^ 31 }
        requires minimum { nat_abs minimum ≤ 2 ^ 31 }
        ensures { result ≡ record {
          told = record { order = order; first = first; second = second; minimum = minimum };
          last = NoNumber;
        } }
    {
        Running {
            order: u64::from(order),
            first,
            second,
            minimum,
            told: 0,
            before: 0,
            last: 0,
        }
    }

    /// The next number, by its code.
    ///
    /// # Errors
    ///
    /// The number is outside plus and minus 2^60. Nothing has changed.
    #[inline]
    pub fn push(&mut self, code: u64) -> Result<i64, ScaledRange>
        requires { code < 2 ^ 49 }
        ensures number { IfOk result (λ number. number ≡ next_of self.old code) }
        ensures within { OnOk result (is_beyond (next_of self.old code) ≡ false) }
        ensures after { OnOk result (self.new ≡ after_code self.old code) }
        ensures beyond { OnErr result (is_beyond (next_of self.old code) ≡ true) }
        ensures unchanged { OnErr result (self.new ≡ self.old) }
    {
        let number = self.next(code);
        if number.unsigned_abs() > 1 << 60 {
            return Err(ScaledRange);
        }
        if self.told < self.order {
            self.told += 1;
        }
        self.before = self.last;
        self.last = number;
        Ok(number)
    }

    /// The number that follows, by its code.
    #[inline]
    fn next(&self, code: u64) -> i64
        requires { code < 2 ^ 49 }
        ensures { result ≡ next_of self.now code }
    {
        if self.told < self.order {
            return if self.told == 0 {
                self.first
            } else {
                self.second
            };
        }
        number_after(self.order, self.minimum, self.before, self.last, code)
    }
}

/// The number after these two, by a code and the overall minimum of differences of this order.
#[inline(always)]
pub(crate) fn number_after(order: u64, minimum: i64, before: i64, last: i64, code: u64) -> i64
    requires minimum { nat_abs minimum ≤ 2 ^ 31 }
    requires before { nat_abs before ≤ 2 ^ 60 }
    requires last { nat_abs last ≤ 2 ^ 60 }
    requires code { code < 2 ^ 49 }
    ensures { result ≡ number_by order (pos code +ℤ minimum) before last }
{
    let difference = code as i64 + minimum;
    if order == 1 {
        difference + last
    } else {
        after_two(difference, before, last)
    }
}

/// The number after `one` and `two` that makes this second difference with them.
#[inline(always)]
fn after_two(difference: i64, one: i64, two: i64) -> i64
    requires difference { nat_abs difference ≤ 2 ^ 50 }
    requires one { nat_abs one ≤ 2 ^ 60 }
    requires two { nat_abs two ≤ 2 ^ 60 }
    ensures { result ≡ (difference +ℤ (pos 2 *ℤ two)) -ℤ one }
{
    difference + 2 * two - one
}
