//! Quotients.

ghost use Rattle.std.specs.Prelude.{◌≡◌, ◌^◌, ◌<◌, ◌≤◌, length, IfOk};
ghost use Rattle.grib_long.specs.Digits.{big, value, size};
ghost use Rattle.grib_long.specs.Floor.{IsFloor};

use crate::long::Long;
use std::alloc::{AllocError, Global};

/// A quotient, rounded down.
#[derive(Debug, Drop)]
pub struct Quotient {
    pub whole: Long,
    /// Whether a part is left.
    pub more: bool,
}

impl Long {
    /// The number by `10 ^ tens`.
    ///
    /// # Errors
    ///
    /// There is no memory.
    pub fn by_tens(self, alloc: Global, tens: u32) -> Result<Quotient, AllocError>
        ensures floor { IfOk result (λ q. IsFloor (value self) (value q.whole) (10 ^ tens) q.more) }
        ensures size { IfOk result (λ q. size q.whole ≡ size self) }
    {
        let mut whole = self;
        let mut more = false;
        let mut left = tens;
        while left > 0 {
            let step = left.min(9);
            let quotient = divided(alloc, whole.digits.as_slice(), 10u32.pow(step))?;
            whole = quotient.whole;
            more = more || quotient.more;
            left -= step;
        }
        Ok(Quotient { whole, more })
    }
}

/// The number of these digits by a divisor.
fn divided(alloc: Global, digits: &[u32], divisor: u32) -> Result<Quotient, AllocError>
    requires { 0 < divisor }
    ensures floor { IfOk result (λ q. IsFloor (big digits.now) (value q.whole) divisor q.more) }
    ensures size { IfOk result (λ q. size q.whole ≡ length digits.now) }
{
    let step = u64::from(divisor);
    let mut quotient = Vec::with_capacity(alloc, digits.len())?;
    let mut rest = 0;
    for digit in digits {
        let part = (rest << 32) + u64::from(*digit);
        quotient.push((part / step) as u32)?;
        rest = part % step;
    }
    Ok(Quotient {
        whole: Long { digits: quotient },
        more: rest != 0,
    })
}
