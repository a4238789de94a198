//! A text as it stands in one line.

ghost use Rattle.std.specs.Prelude.{◌≡◌, ◌++◌, ◌<◌, string_bytes, IfOk};
ghost use Rattle.std.specs.Char.{digit_char};
ghost use Rattle.grib_topics.specs.Shown as lines;

use std::alloc::{AllocError, Global};

/// A text as it stands in one line: a control character is written as `\x` with the two digits of its number to the
/// base of 16, all else as it is. The only error is that there is no memory.
pub fn shown(alloc: Global, text: &str) -> Result<String, AllocError>
    ensures { IfOk result (λ line. string_bytes line ≡ lines.shown text.now) }
{
    let mut line = String::new(alloc);
    for c in text.chars() {
        push_shown(&mut line, c)?;
    }
    Ok(line)
}

/// Appends a character, a control character by its number.
fn push_shown(line: &mut String, c: char) -> Result<(), AllocError>
    ensures { IfOk result (λ _. string_bytes line.new ≡ string_bytes line.old ++ lines.shown_char c) }
{
    if c.is_control() {
        push_escape(line, c)
    } else {
        line.push(c)
    }
}

/// Appends a character below 256 by its number.
fn push_escape(line: &mut String, c: char) -> Result<(), AllocError>
    requires { c < 256 }
    ensures { IfOk result (λ _. string_bytes line.new ≡ string_bytes line.old ++ lines.escape c) }
{
    let number = c as u32;
    let high = digit(number / 16);
    let low = digit(number % 16);
    line.push_str("\\x")?;
    line.push(high)?;
    line.push(low)
}

/// The character of a digit to the base of 16.
fn digit(number: u32) -> char
    requires { number < 16 }
    ensures digit { result ≡ digit_char number }
    ensures ascii { result < 128 }
{
    match char::from_digit(number, 16) {
        Some(digit) => digit,
        None => '0',
    }
}
