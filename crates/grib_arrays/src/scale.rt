//! What is kept of a field for its points.

ghost use Rattle.std.specs.Prelude.{◌≤◌, ◌^◌, nat_abs};

use grib_nearest::Format;

/// How the scaled numbers of a field become words of a format.
#[derive(Clone, Copy, Debug, PartialEq, Eq)]
pub struct ArrayScale {
    pub(crate) format: Format,
    /// The reference value R.
    pub(crate) mantissa: i64,
    pub(crate) exponent: i32,
    /// The binary scale factor E.
    pub(crate) e: i32,
    /// The decimal scale factor D, where it is below 0 and where it is above 0.
    pub(crate) up: u32,
    pub(crate) down: u32,
    ghost exponent_small: { nat_abs exponent ≤ 2 ^ 15 },
    ghost e_small: { nat_abs e ≤ 2 ^ 15 },
    ghost up_small: { up ≤ 2 ^ 15 },
    ghost down_small: { down ≤ 2 ^ 15 },
}
