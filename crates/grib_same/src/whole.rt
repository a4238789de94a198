//! Whole numbers of any length.

ghost use Rattle.std.specs.Prelude.{◌≡◌, ◌*◌, ◌^◌, ◌↔◌, pos, ◌+ℤ◌, ◌*ℤ◌, IsTrue, IfOk};

use crate::digits::{are_same, multiplied, zero_digits};
use std::alloc::{AllocError, Global};

/// A whole number by its digits to base 2^32, the least one first, and the number that stands above them.
#[derive(Debug, Drop)]
pub(crate) struct Whole {
    pub(crate) digits: Vec<u32>,
    pub(crate) top: i64,
}

impl Whole {
    ghost use Rattle.grib_same.specs.Wholes.{value};

    /// A number of 64 bits.
    pub(crate) fn of(alloc: Global, number: i64) -> Whole
        ensures { value result ≡ number }
    {
        Whole {
            digits: Vec::new(alloc),
            top: number,
        }
    }

    /// The number times `2 ^ twos`, plus a number.
    ///
    /// # Errors
    ///
    /// There is no memory.
    pub(crate) fn shifted_plus(
        self,
        alloc: Global,
        twos: u32,
        number: i64,
    ) -> Result<Whole, AllocError>
        ensures { IfOk result (λ whole. value whole ≡ (value self *ℤ pos (2 ^ twos)) +ℤ number) }
    {
        let higher = self.above_zeros(alloc, twos / 32)?;
        higher.times_plus(alloc, 1 << (twos % 32), number)
    }

    /// The number times `10 ^ tens`. That of 0 is 0, whatever `tens` is.
    ///
    /// # Errors
    ///
    /// There is no memory.
    pub(crate) fn times_tens(self, alloc: Global, tens: u32) -> Result<Whole, AllocError>
        ensures { IfOk result (λ whole. value whole ≡ value self *ℤ pos (10 ^ tens)) }
    {
        let zero = Whole::of(alloc, 0);
        if self.is(&zero) {
            return Ok(zero);
        }
        let mut product = self;
        let mut left = tens;
        while left > 0 {
            let step = left.min(9);
            product = product.times_plus(alloc, 10u32.pow(step), 0)?;
            left -= step;
        }
        Ok(product)
    }

    /// The number times `2 ^ (32 * zeros)`.
    fn above_zeros(self, alloc: Global, zeros: u32) -> Result<Whole, AllocError>
        ensures { IfOk result (λ whole. value whole ≡ value self *ℤ pos (2 ^ (32 * zeros))) }
    {
        let mut digits = zero_digits(alloc, zeros)?;
        digits.extend_from_slice(self.digits.as_slice())?;
        Ok(Whole {
            digits,
            top: self.top,
        })
    }

    /// The number times a factor, plus a number.
    fn times_plus(self, alloc: Global, factor: u32, number: i64) -> Result<Whole, AllocError>
        ensures { IfOk result (λ whole. value whole ≡ (value self *ℤ pos factor) +ℤ number) }
    {
        multiplied(alloc, self.digits.as_slice(), self.top, factor, number)
    }

    /// Whether both are one number.
    pub(crate) fn is(&self, other: &Whole) -> bool
        ensures { IsTrue result ↔ (value self.now ≡ value other.now) }
    {
        let digits = self.digits.as_slice();
        let other_digits = other.digits.as_slice();
        if digits.len() <= other_digits.len() {
            are_same(digits, self.top, other_digits, other.top)
        } else {
            are_same(other_digits, other.top, digits, self.top)
        }
    }
}
