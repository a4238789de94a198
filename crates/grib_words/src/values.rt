//! The values of keys in arguments.

ghost use Rattle.std.specs.Prelude.{◌≡◌};
ghost use Rattle.grib_words.specs.Values.{key_value};

use grib_keys::Value;
use grib_numbers::signed_number;

/// The value of a key that a text writes: `missing`, or a number within 64 bits with sign.
pub fn key_value(text: &str) -> Option<Value>
    ensures { result ≡ key_value text.now }
{
    if text == "missing" {
        return Some(Value::Missing);
    }
    match signed_number(text) {
        Some(number) => Some(Value::Number(number)),
        None => None,
    }
}
