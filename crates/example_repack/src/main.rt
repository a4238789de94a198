//! Repacks each message of standard input to spatial differences of order 2. Messages of edition 1 are copied.
#![tactic(auto)]

use grib::{Reader, RepackError, RepackTarget};
use std::io::Write;

fn main(rt: HostRuntime) -> anyhow::Result<()> {
    let alloc = rt.alloc();
    let mut reader = Reader::from_reader(alloc, rt.stdin());
    while reader.advance()? {
        let message = reader.message()?;
        match message.repack(alloc, RepackTarget::Spatial(2)) {
            Ok(octets) => rt.stdout().write_all(&octets)?,
            Err(RepackError::EditionOne) => rt.stdout().write_all(message.octets())?,
            Err(error) => return Err(error.into()),
        }
    }
    Ok(())
}
