//! The numerators of points in 64 bits.

ghost use Rattle.std.specs.Prelude.{◌≡◌, ℤ, ◌+◌, ◌*◌, ◌<◌, ◌≤◌, ◌^◌, pos, ◌≤ℤ◌, ◌<ℤ◌, ◌+ℤ◌, ◌*ℤ◌, nat_abs, IfSome};
ghost use Rattle.grib_decimal.specs.Divisors.{divisor_of};

use crate::rounding::Divisor;

/// The points with a scaled number X up to a magnitude have the numerator `origin + X * stride`, with its sign,
/// and it has 64 bits.
#[derive(Clone, Copy, Debug)]
pub(crate) struct Quick {
    pub(crate) origin: i64,
    pub(crate) stride: i64,
    pub(crate) divisor: Divisor,
    pub(crate) most: u64,
    ghost within: { nat_abs origin + most * nat_abs stride < 2 ^ 63 },
    ghost divisor_some: { 0 < divisor_of divisor },
    ghost divisor_small: { divisor_of divisor < 2 ^ 63 },
}
