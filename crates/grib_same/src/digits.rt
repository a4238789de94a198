//! Digits of whole numbers.

ghost use Rattle.std.specs.Prelude.{◌≡◌, ℤ, ◌*◌, ◌^◌, ◌≤◌, ◌↔◌, length, pos, ◌+ℤ◌, ◌*ℤ◌, IsTrue, IfOk};
ghost use Rattle.grib_same.specs.Wholes.{number_of, value};

use crate::part::{Part, is_number};
use crate::whole::Whole;
use std::alloc::{AllocError, Global};

/// The number of these digits, and what stands above them, times a factor, plus a number.
pub(crate) fn multiplied(
    alloc: Global,
    digits: &[u32],
    top: i64,
    factor: u32,
    number: i64,
) -> Result<Whole, AllocError>
    ensures { IfOk result (λ whole. value whole ≡ (number_of digits.now top *ℤ pos factor) +ℤ number) }
{
    let mut product = Vec::with_capacity(alloc, digits.len())?;
    let mut carry = number;
    for digit in digits {
        let part = Part::of(i64::from(*digit), factor, carry);
        product.push(part.digit)?;
        carry = part.above;
    }
    let last = Part::of(top, factor, carry);
    product.push(last.digit)?;
    Ok(Whole {
        digits: product,
        top: last.above,
    })
}

/// So many digits of 0.
pub(crate) fn zero_digits(alloc: Global, count: u32) -> Result<Vec<u32>, AllocError>
    ensures { IfOk result (λ digits. (top : ℤ) → number_of digits.items top ≡ top *ℤ pos (2 ^ (32 * count))) }
{
    let mut digits = Vec::new(alloc);
    for _ in 0..count {
        digits.push(0)?;
    }
    Ok(digits)
}

/// Whether two numbers are one, where the first has no more digits.
pub(crate) fn are_same(few: &[u32], few_top: i64, many: &[u32], many_top: i64) -> bool
    requires { length few.now ≤ length many.now }
    ensures { IsTrue result ↔ (number_of few.now few_top ≡ number_of many.now many_top) }
{
    for i in 0..few.len() {
        if few[i] != many[i] {
            return false;
        }
    }
    is_number(&many[few.len()..], many_top, few_top)
}
