//! Numbers as arguments write them.

ghost use Rattle.std.specs.Prelude.{◌≡◌, ◌^◌, ◌&&◌, ◌==◌, get_or, drop, nat_lt, cond, Some, None};
ghost use Rattle.grib_numbers.specs.Numbers.{begins_from_one, is_number, number, is_between, from_zero, below_zero, signed_number};

/// Whether a text begins with a digit 1 to 9.
fn begins_from_one(text: &[u8]) -> bool
    ensures { result ≡ begins_from_one text.now }
{
    matches!(text, [b'1'..=b'9', ..])
}

/// Whether a text begins with `-` and a digit 1 to 9.
fn begins_below_zero(text: &[u8]) -> bool
    ensures { result ≡ ((get_or text.now 0 0 == 45) && begins_from_one (drop 1 text.now)) }
{
    matches!(text, [b'-', b'1'..=b'9', ..])
}

/// The number that a text writes: `0`, or a digit 1 to 9 followed by digits. `None` where it writes
/// none, or one that 64 bits do not hold.
pub fn number_of(text: &str) -> Option<u64>
    ensures { result ≡ cond (is_number text.now && nat_lt (number text.now) (2 ^ 64))
        (Some (number text.now)) None }
{
    if text == "0" {
        Some(0)
    } else if begins_from_one(text.as_bytes()) {
        text.parse::<u64>().ok()
    } else {
        None
    }
}

/// Whether a text writes a number from `least` to `most`.
pub fn is_between(text: &str, least: u64, most: u64) -> bool
    ensures { result ≡ is_between least most text.now }
{
    match number_of(text) {
        Some(number) => least <= number && number <= most,
        None => false,
    }
}

/// The number that a text writes without sign, where 64 bits with sign hold it.
fn from_zero(text: &str) -> Option<i64>
    ensures { result ≡ from_zero text.now }
{
    if text == "0" {
        Some(0)
    } else if begins_from_one(text.as_bytes()) {
        text.parse::<i64>().ok()
    } else {
        None
    }
}

/// The number below zero that a text writes by `-` and the digits of its magnitude.
fn below_zero(text: &str) -> Option<i64>
    ensures { result ≡ below_zero text.now }
{
    if begins_below_zero(text.as_bytes()) {
        text.parse::<i64>().ok()
    } else {
        None
    }
}

/// The number that a text writes, where 64 bits with sign hold it.
pub fn signed_number(text: &str) -> Option<i64>
    ensures { result ≡ signed_number text.now }
{
    from_zero(text).or(below_zero(text))
}
