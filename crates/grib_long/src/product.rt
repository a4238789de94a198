//! Products.

ghost use Rattle.std.specs.Prelude.{◌≡◌, ◌+◌, ◌*◌, ◌^◌, ◌≤◌, length, IfOk};
ghost use Rattle.grib_long.specs.Digits.{little, value, size};

use crate::long::Long;
use std::alloc::{AllocError, Global};

/// What a digit counts in the place before the last one.
pub(crate) const BASE: u64 = 1 << 32;

impl Long {
    /// The number times `10 ^ tens`.
    ///
    /// # Errors
    ///
    /// There is no memory.
    pub fn times_tens(self, alloc: Global, tens: u32) -> Result<Long, AllocError>
        ensures value { IfOk result (λ n. value n ≡ value self * 10 ^ tens) }
        ensures size { IfOk result (λ n. size n ≤ size self + tens) }
    {
        let mut digits = self.digits;
        digits.reverse();
        let mut digits = by_tens(alloc, digits, tens)?;
        digits.reverse();
        Ok(Long { digits })
    }
}

/// The digits of a number times `10 ^ tens`, the last digit first.
fn by_tens(alloc: Global, digits: Vec<u32>, tens: u32) -> Result<Vec<u32>, AllocError>
    ensures value { IfOk result (λ product. little product.items ≡ little digits.items * 10 ^ tens) }
    ensures size { IfOk result (λ product. length product.items ≤ length digits.items + tens) }
{
    let mut product = digits;
    let mut left = tens;
    while left > 0 {
        let step = left.min(9);
        product = multiplied(alloc, product.as_slice(), 10u32.pow(step))?;
        left -= step;
    }
    Ok(product)
}

/// The digits of a number times a factor, the last digit first.
fn multiplied(alloc: Global, digits: &[u32], factor: u32) -> Result<Vec<u32>, AllocError>
    ensures value { IfOk result (λ product. little product.items ≡ little digits.now * factor) }
    ensures size { IfOk result (λ product. length product.items ≡ length digits.now + 1) }
{
    let mut product = Vec::with_capacity(alloc, digits.len())?;
    let mut carry = 0;
    for digit in digits {
        let part = u64::from(*digit) * u64::from(factor) + carry;
        product.push((part % BASE) as u32)?;
        carry = part / BASE;
    }
    product.push(carry as u32)?;
    Ok(product)
}
