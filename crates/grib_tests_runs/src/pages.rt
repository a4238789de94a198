//! Pages that the program prints without an input.

use crate::in_memory::{CALM, Failing, run_over};
use grib_engine::Outcome;
use grib_samples::PLAIN;
use std::test::Fail;

#[test]
fn no_input_is_read(rt: HostRuntime) -> Result<(), Fail> {
    // A read would fail.
    let failing = Failing { input: 1, ..CALM };
    let told = run_over(rt.alloc(), "version", &PLAIN, 183, failing)?;
    assert!(rt; told.is(Outcome::Done, "grib 1.0.0-alpha\n", ""));
    Ok(())
}

#[test]
fn each_write_of_a_page_may_fail(rt: HostRuntime) -> Result<(), Fail> {
    // The output takes 12 octets of the line and the other 5, and is then finished.
    for (output, front) in [(1, ""), (2, "grib 1.0.0-a"), (3, "grib 1.0.0-alpha\n")] {
        let failing = Failing { output, ..CALM };
        let told = run_over(rt.alloc(), "version", &PLAIN, 12, failing)?;
        assert!(rt; told.is(Outcome::WriteFault, front, ""));
    }
    Ok(())
}

#[test]
fn the_notes_of_a_page_may_fail(rt: HostRuntime) -> Result<(), Fail> {
    // There is no note, so the notes are only finished.
    let failing = Failing { notes: 1, ..CALM };
    let told = run_over(rt.alloc(), "version", &PLAIN, 80, failing)?;
    assert!(rt; told.is(Outcome::WriteFault, "grib 1.0.0-alpha\n", ""));
    Ok(())
}
