//! `compare` with files that are refused, of which no input is taken, and with a shelf that fails.

use crate::in_memory::{CALM, Failing, Ran, run_over, run_with};
use grib_base::{Fault, Reason, Refusal};
use grib_engine::Outcome;
use grib_io::MemoryShelf;
use grib_samples::{PLAIN, between};
use grib_stream::FileRefusal;
use std::alloc::{AllocError, Global};
use std::test::Fail;

// An input whose first call would fail, were it made.
const UNREAD: Failing = Failing { input: 1, ..CALM };

fn truncated(message: u64) -> Refusal {
    Refusal {
        message,
        fault: Fault {
            octet: 101,
            reason: Reason::Truncated,
            detail: 100,
        },
    }
}

// A run of arguments over these octets, with this file on the shelf under the name `f`.
fn run_beside(
    alloc: Global,
    words: &str,
    input: &[u8],
    file: &[u8],
    failing: Failing,
) -> Result<Ran, AllocError> {
    let mut shelf = MemoryShelf::new(alloc, Vec::new(alloc));
    shelf.put("f", file)?;
    run_with(alloc, words, input, 50, failing, shelf)
}

#[test]
fn files_that_are_refused(rt: HostRuntime) -> Result<(), Fail> {
    let alloc = rt.alloc();
    let ran = run_over(alloc, "compare with=f", &PLAIN, 50, UNREAD)?;
    let outcome = Outcome::FileRefused(FileRefusal::Absent);
    assert!(rt; ran.is(outcome, "", "file absent\n") && outcome.status() == 4);
    let mut cut = PLAIN.to_vec(alloc)?;
    cut.extend_from_slice(between(&PLAIN, 0, 100))?;
    let ran = run_beside(alloc, "compare with=f", &PLAIN, cut.as_slice(), UNREAD)?;
    let outcome = Outcome::FileRefused(FileRefusal::Refused(truncated(2)));
    let note = "file refused message 2 octet 101 Truncated 100\n";
    assert!(rt; ran.is(outcome, "", note) && outcome.status() == 2);
    Ok(())
}

#[test]
fn a_shelf_that_fails(rt: HostRuntime) -> Result<(), Fail> {
    let alloc = rt.alloc();
    for call in [1, 2] {
        let mut shelf = MemoryShelf::new(alloc, [call].to_vec(alloc)?);
        shelf.put("f", &PLAIN)?;
        let ran = run_with(alloc, "compare with=f", &PLAIN, 50, UNREAD, shelf)?;
        assert!(rt; ran.is(Outcome::ShelfFault, "", "shelf fault\n"));
    }
    Ok(())
}
