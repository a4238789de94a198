//! The line of a field of a message of edition 2.

ghost use Rattle.std.specs.Prelude.{◌≡◌, ◌≤◌, ◌++◌, string_bytes, IfOk, OnOk};
ghost use Rattle.grib2_message.specs.Fields.{field_count};
ghost use Rattle.grib_keys.specs.Keys.{keys};
ghost use Rattle.grib_text.specs.KeyLines as lines;

use grib_keys::{Change, Key, Value};
use grib_select::key_value;
use grib2_message::Message;
use std::alloc::{AllocError, Global};

/// The line of a field, from 1, of the message with this number, from 1: each key that the field has, as
/// `filter` takes it. The only error is that there is no memory.
pub fn keys_line(
    alloc: Global,
    message: &Message<'_>,
    number: u64,
    field: u32,
) -> Result<Vec<u8>, AllocError>
    requires first { 1 ≤ field }
    requires last { field ≤ field_count message.now }
    ensures { IfOk result (λ line. line.items ≡ lines.keys_line message.now number field) }
{
    let mut line = keys_text(alloc, message, number, field)?;
    line.push('\n')?;
    Ok(line.into_bytes())
}

/// The same without its newline.
pub(crate) fn keys_text(
    alloc: Global,
    message: &Message<'_>,
    number: u64,
    field: u32,
) -> Result<String, AllocError>
    requires first { 1 ≤ field }
    requires last { field ≤ field_count message.now }
    ensures { IfOk result (λ text. string_bytes text ≡ lines.keys_text message.now number field) }
{
    let mut text = format!(in alloc; "{number}.{field} ed=2")?;
    write_words(&mut text, message, field)?;
    Ok(text)
}

/// Writes the keys that the field has, each with its value.
fn write_words(line: &mut String, message: &Message<'_>, field: u32) -> Result<(), AllocError>
    requires first { 1 ≤ field }
    requires last { field ≤ field_count message.now }
    ensures { OnOk result (string_bytes line.new ≡ string_bytes line.old ++ lines.words_text message.now field keys) }
{
    for key in Key::all() {
        write_word(line, *key, key_value(message, field, *key))?;
    }
    Ok(())
}

/// Writes a key with its value after a space, nothing where the key has no value.
fn write_word(line: &mut String, key: Key, value: Option<Value>) -> Result<(), AllocError>
    ensures { OnOk result (string_bytes line.new ≡ string_bytes line.old ++ lines.word_text key value) }
{
    match value {
        Some(value) => write!(line, " {}", Change { key, value }),
        None => Ok(()),
    }
}
