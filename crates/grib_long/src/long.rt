//! A whole number of any length.

ghost use Rattle.std.specs.Prelude.{◌≡◌, ◌+◌, ◌*◌, ◌^◌, IfOk};
ghost use Rattle.grib_long.specs.Digits.{value, size};

use std::alloc::AllocError;

/// A whole number, by its digits to base 2^32, the first of which counts most.
#[derive(Debug, Drop)]
pub struct Long {
    pub(crate) digits: Vec<u32>,
}

impl Long {
    /// The number with this many digits of 0 behind its own: times `2 ^ (32 * zeros)`.
    ///
    /// # Errors
    ///
    /// There is no memory.
    pub fn shifted(self, zeros: u32) -> Result<Long, AllocError>
        ensures value { IfOk result (λ n. value n ≡ value self * 2 ^ (32 * zeros)) }
        ensures size { IfOk result (λ n. size n ≡ size self + zeros) }
    {
        let mut digits = self.digits;
        for _ in 0..zeros {
            digits.push(0)?;
        }
        Ok(Long { digits })
    }
}
