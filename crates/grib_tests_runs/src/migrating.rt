//! `migrate` where a call of a device fails.

use crate::in_memory::{CALM, Failing, Ran, run_with_table};
use grib_engine::Outcome;
use grib_samples::{FIRST_EDITION, MIGRATED, between};
use std::alloc::{AllocError, Global};
use std::test::Fail;

const WORDS: &str = "migrate params=t";

// A run over the plain message, twice, in pieces of 50, in which some calls fail.
fn failing(alloc: Global, failing: Failing) -> Result<Ran, AllocError> {
    let mut octets = FIRST_EDITION.to_vec(alloc)?;
    octets.extend_from_slice(FIRST_EDITION)?;
    run_with_table(alloc, WORDS, octets.as_slice(), 50, failing)
}

// What is written where all is calm.
fn written(alloc: Global) -> Result<Vec<u8>, AllocError> {
    let mut both = MIGRATED.to_vec(alloc)?;
    both.extend_from_slice(MIGRATED)?;
    Ok(both)
}

const NOTE: &str = "messages 2 fields 2 written 366\n";

#[test]
fn the_input_may_fail(rt: HostRuntime) -> Result<(), Fail> {
    let both = written(rt.alloc())?;
    // 176 octets come in four reads of 50 at most, and the fifth finds the end.
    for (input, written) in [(1, 0), (2, 0), (3, 183), (4, 183), (5, 366)] {
        let ran = failing(rt.alloc(), Failing { input, ..CALM })?;
        let output = between(both.as_slice(), 0, written);
        assert!(rt; ran.gave(Outcome::ReadFault, output, "read fault\n"));
    }
    Ok(())
}

#[test]
fn the_output_may_fail(rt: HostRuntime) -> Result<(), Fail> {
    let both = written(rt.alloc())?;
    // Each message takes four writes, and the output is finished behind the note.
    for (output, written, noted) in [
        (1, 0, ""),
        (4, 150, ""),
        (5, 183, ""),
        (8, 333, ""),
        (9, 366, NOTE),
    ] {
        let ran = failing(rt.alloc(), Failing { output, ..CALM })?;
        let output = between(both.as_slice(), 0, written);
        assert!(rt; ran.gave(Outcome::WriteFault, output, noted));
    }
    Ok(())
}

#[test]
fn the_notes_may_fail(rt: HostRuntime) -> Result<(), Fail> {
    let both = written(rt.alloc())?;
    for (notes, noted) in [(1, ""), (2, NOTE)] {
        let ran = failing(rt.alloc(), Failing { notes, ..CALM })?;
        assert!(rt; ran.gave(Outcome::WriteFault, both.as_slice(), noted));
    }
    Ok(())
}

#[test]
fn later_calls_are_not_made(rt: HostRuntime) -> Result<(), Fail> {
    let both = written(rt.alloc())?;
    let calm = Failing {
        input: 6,
        output: 10,
        notes: 3,
    };
    let ran = failing(rt.alloc(), calm)?;
    assert!(rt; ran.gave(Outcome::Done, both.as_slice(), NOTE));
    Ok(())
}
