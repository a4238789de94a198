//! Prints the value of each point of each field of standard input, with two decimals.
#![tactic(auto)]

use grib::{Reader, Value};

fn main(rt: HostRuntime) -> anyhow::Result<()> {
    let alloc = rt.alloc();
    let mut reader = Reader::from_reader(alloc, rt.stdin());
    while reader.advance()? {
        for field in reader.message()?.fields() {
            for value in field.points(alloc)? {
                match value {
                    Value::Number(exact) => println!(rt; "{}", exact.decimal(alloc, 2)?)?,
                    Value::Missing => println!(rt; "missing")?,
                }
            }
        }
    }
    Ok(())
}
