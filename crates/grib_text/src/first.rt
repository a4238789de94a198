//! The line of a message of edition 1.

ghost use Rattle.std.specs.Prelude.{◌≡◌, ◌++◌, string_bytes, IfOk, OnOk};
ghost use Rattle.grib_text.specs.KeyLines as lines;
ghost use Rattle.grib_keys.specs.Keys1.{keys1};

use grib1_sections::{Key1, Message1};
use std::alloc::{AllocError, Global};

/// The line of the message with this number, from 1: the numbers of Section 1. The only error is that there is
/// no memory.
pub fn keys_line1(alloc: Global, message: &Message1<'_>, number: u64) -> Result<Vec<u8>, AllocError>
    ensures { IfOk result (λ line. line.items ≡ lines.keys_line1 message.now number) }
{
    let mut line = keys_text1(alloc, message, number)?;
    line.push('\n')?;
    Ok(line.into_bytes())
}

/// The same without its newline.
pub(crate) fn keys_text1(
    alloc: Global,
    message: &Message1<'_>,
    number: u64,
) -> Result<String, AllocError>
    ensures { IfOk result (λ text. string_bytes text ≡ lines.keys_text1 message.now number) }
{
    let mut text = format!(in alloc; "{number}.1 ed=1")?;
    write_numbers(&mut text, message)?;
    Ok(text)
}

/// Writes the numbers of Section 1.
fn write_numbers(line: &mut String, message: &Message1<'_>) -> Result<(), AllocError>
    ensures { OnOk result (string_bytes line.new ≡ string_bytes line.old ++ lines.numbers_text message.now keys1) }
{
    for key in Key1::all() {
        write_number(line, message, *key)?;
    }
    Ok(())
}

/// Writes a number of Section 1 after a space and its name.
fn write_number(line: &mut String, message: &Message1<'_>, key: Key1) -> Result<(), AllocError>
    ensures { OnOk result (string_bytes line.new ≡ string_bytes line.old ++ lines.number_text message.now key) }
{
    let name = key.name();
    let number = message.number1(key);
    write!(line, " {name}={number}")
}
