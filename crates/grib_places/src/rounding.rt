//! Rounding to whole numbers, half to even.

ghost use Rattle.std.specs.Prelude.{◌≡◌, ◌≤◌, ◌<◌, ◌^◌, nat_abs};
ghost use Rattle.grib_decimal.specs.Rounding as definitions;
ghost use Rattle.grib_places.specs.Degrees.{micro_degrees};

/// The whole number nearest to `number / parts`, the even one of two that are equally near.
pub(crate) fn rounded(number: i64, parts: u32) -> i64
    requires some { 1 ≤ parts }
    requires small { nat_abs number < 2 ^ 62 }
    ensures { result ≡ micro_degrees (record { number = number; parts = parts }) }
{
    let magnitude = nearest(number.unsigned_abs(), u64::from(parts)) as i64;
    if number < 0 { -magnitude } else { magnitude }
}

/// The whole number nearest to `number / parts`, the even one of two that are equally near.
fn nearest(number: u64, parts: u64) -> u64
    requires some { 1 ≤ parts }
    requires few { parts < 2 ^ 32 }
    requires small { number < 2 ^ 62 }
    ensures value { result ≡ definitions.nearest number parts }
    ensures small { result ≤ 2 ^ 62 }
{
    let whole = number / parts;
    let twice = 2 * (number % parts);
    if twice < parts {
        whole
    } else if parts < twice {
        whole + 1
    } else {
        whole + whole % 2
    }
}
