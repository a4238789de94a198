//! Copies the temperatures at 500 hPa of standard input to standard output, each as a message of its own.
#![tactic(auto)]

use grib::{Field, Key, KeyValue, Reader};
use std::io::Write;

/// Whether a field has category 0 and number 0 (temperature) at 50,000 Pa (fixed surface 100).
fn is_wanted(field: &Field<'_, '_>) -> bool {
    field.get(Key::Category) == Some(KeyValue::Number(0))
        && field.get(Key::Number) == Some(KeyValue::Number(0))
        && field.get(Key::Surface1) == Some(KeyValue::Number(100))
        && field.get(Key::Surface1Value) == Some(KeyValue::Number(50_000))
}

fn main(rt: HostRuntime) -> anyhow::Result<()> {
    let alloc = rt.alloc();
    let mut reader = Reader::from_reader(alloc, rt.stdin());
    while reader.advance()? {
        for field in reader.message()?.fields().filter(is_wanted) {
            rt.stdout().write_all(&field.extract(alloc)?)?;
        }
    }
    Ok(())
}
