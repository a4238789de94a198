//! Degrees of latitude and longitude as arguments write them.

ghost use Rattle.std.specs.Prelude.{◌≡◌, ◌≤◌, ◌<◌, ◌^◌, ◌==◌, get_or, IfSome};
ghost use Rattle.grib_numbers.specs.Degrees as definitions;

use crate::numbers::number_of;

/// The degrees that a text writes, in 10^-6 degree: whole degrees up to 360, maybe a point with one to six digits after it,
/// and `-` before what lies south or west. `None` where it writes none.
pub fn degrees_of(text: &str) -> Option<i32>
    ensures { result ≡ definitions.degrees_of text.now }
{
    match text.strip_prefix('-') {
        Some(magnitude) => Some(-(magnitude_of(magnitude)? as i32)),
        None => Some(magnitude_of(text)? as i32),
    }
}

/// Whether a text writes degrees from `least` to `most`, in 10^-6 degree.
pub fn are_degrees(text: &str, least: i32, most: i32) -> bool
    ensures { result ≡ definitions.are_degrees least most text.now }
{
    match degrees_of(text) {
        Some(degrees) => least <= degrees && degrees <= most,
        None => false,
    }
}

/// The degrees without sign that a text writes, in 10^-6 degree.
fn magnitude_of(text: &str) -> Option<u32>
    ensures value { result ≡ definitions.magnitude_of text.now }
    ensures few { IfSome result (λ magnitude. magnitude < 2 ^ 31) }
{
    match text.split_once('.') {
        Some((whole, fraction)) => Some(whole_of(whole)? * 1_000_000 + fraction_of(fraction)?),
        None => Some(whole_of(text)? * 1_000_000),
    }
}

/// The whole degrees that a text writes, 360 at most.
fn whole_of(text: &str) -> Option<u32>
    ensures value { result ≡ definitions.whole_of text.now }
    ensures few { IfSome result (λ whole. whole ≤ 360) }
{
    match number_of(text) {
        Some(number) if number <= 360 => Some(number as u32),
        _ => None,
    }
}

/// One to six digits after a point, in 10^-6 degree.
fn fraction_of(text: &str) -> Option<u32>
    ensures value { result ≡ definitions.fraction_of text.now }
    ensures few { IfSome result (λ fraction. fraction < 10 ^ 6) }
{
    if text.len() > 6 || !begins_with_digit(text.as_bytes()) {
        return None;
    }
    let digits = text.parse::<u32>().ok()?;
    Some(digits * 10u32.pow(6 - text.len() as u32))
}

/// Whether a text begins with a digit.
fn begins_with_digit(text: &[u8]) -> bool
    ensures { result ≡ definitions.begins_with_digit text.now }
{
    matches!(text, [b'0'..=b'9', ..])
}
