//! The least digit of a number of few digits.

ghost use Rattle.std.specs.Prelude.{◌≡◌, ◌^◌, ◌≤◌, pos, ◌+ℤ◌, ◌*ℤ◌, ◌↔◌, IsTrue};
ghost use Rattle.grib_same.specs.Wholes.{number_of};

/// A number by its least digit to base 2^32 and the number that stands above it.
#[derive(Clone, Copy, Debug)]
pub(crate) struct Part {
    pub(crate) digit: u32,
    pub(crate) above: i64,
}

impl Part {
    /// The number `number * factor + carry`.
    pub(crate) fn of(number: i64, factor: u32, carry: i64) -> Part
        ensures { (pos result.digit +ℤ (pos (2 ^ 32) *ℤ result.above)) ≡ ((number *ℤ pos factor) +ℤ carry) }
    {
        let sum = i128::from(number) * i128::from(factor) + i128::from(carry);
        Part {
            digit: sum.rem_euclid(1 << 32) as u32,
            above: sum.div_euclid(1 << 32) as i64,
        }
    }
}

/// Whether the digits, with what stands above them, are a number of 64 bits.
pub(crate) fn is_number(digits: &[u32], top: i64, number: i64) -> bool
    ensures { IsTrue result ↔ (number_of digits.now top ≡ number) }
{
    let mut left = number;
    for digit in digits {
        let part = Part::of(left, 1, 0);
        if part.digit != *digit {
            return false;
        }
        left = part.above;
    }
    left == top
}
