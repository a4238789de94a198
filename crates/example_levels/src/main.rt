//! Prints for each type and value of a level how many fields of standard input stand there.
#![tactic(auto)]

use grib::{Key, KeyValue, Reader};
use std::collections::BTreeMap;

fn main(rt: HostRuntime) -> anyhow::Result<()> {
    let alloc = rt.alloc();
    let mut reader = Reader::from_reader(alloc, rt.stdin());
    let mut levels = BTreeMap::new(alloc);
    while reader.advance()? {
        for field in reader.message()?.fields() {
            let level = (field.get(Key::Surface1), field.get(Key::Surface1Value));
            if let (Some(KeyValue::Number(kind)), Some(KeyValue::Number(value))) = level {
                let fields = levels.get(&(kind, value)).copied().unwrap_or(0u64);
                levels.insert((kind, value), fields.saturating_add(1))?;
            }
        }
    }
    for ((kind, value), fields) in &levels {
        println!(rt; "level {kind}:{value} fields {fields}")?;
    }
    Ok(())
}
