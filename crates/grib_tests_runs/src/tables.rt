//! Tables of `migrate`: of those that are refused no input is taken; and a shelf that fails.

use crate::in_memory::{CALM, Failing, Ran, run_with};
use grib_engine::Outcome;
use grib_io::{MemoryShelf, MemorySource, Source};
use grib_reasons::TableRefusal;
use grib_samples::{FIRST_EDITION, MIGRATED, TABLE};
use std::alloc::{AllocError, Global};
use std::test::Fail;

// A run over the plain message with this shelf. The first call of the input would fail.
fn run_unread(alloc: Global, words: &str, shelf: MemoryShelf) -> Result<Ran, AllocError> {
    let failing = Failing { input: 1, ..CALM };
    run_with(alloc, words, FIRST_EDITION, 100, failing, shelf)
}

// Whether no call was made of an input whose first call fails, and none of its octets was taken.
fn is_unread(input: &mut MemorySource) -> bool {
    let mut octets = [0u8; 88];
    let first = Source::read(input, &mut octets);
    first.is_err()
        && Source::read(input, &mut octets) == Ok(88)
        && octets.as_slice() == FIRST_EDITION
}

// A shelf that has this table under the name `t`.
fn shelf_with(alloc: Global, table: &[u8]) -> Result<MemoryShelf, AllocError> {
    let mut shelf = MemoryShelf::new(alloc, Vec::new(alloc));
    shelf.put("t", table)?;
    Ok(shelf)
}

// Whether a run with this table is refused so, with nothing of the input read and nothing written.
fn refuses(
    alloc: Global,
    table: &[u8],
    refusal: TableRefusal,
    note: &str,
) -> Result<bool, AllocError> {
    let shelf = shelf_with(alloc, table)?;
    let mut ran = run_unread(alloc, "migrate params=t", shelf)?;
    Ok(
        ran.is(Outcome::TableRefused(refusal), "", note)
            && ran.outcome.status() == 4
            && ran.shelf.octets("t") == Some(table)
            && is_unread(&mut ran.input),
    )
}

#[test]
fn an_absent_table(rt: HostRuntime) -> Result<(), Fail> {
    let shelf = shelf_with(rt.alloc(), TABLE)?;
    let mut ran = run_unread(rt.alloc(), "migrate params=u", shelf)?;
    let outcome = Outcome::TableRefused(TableRefusal::Absent);
    assert!(rt; ran.is(outcome, "", "table absent\n"));
    assert_eq!(rt; ran.outcome.status(), 4);
    assert!(rt; is_unread(&mut ran.input));
    assert!(rt; ran.shelf.octets("u") == None);
    Ok(())
}

#[test]
fn records_at_fault(rt: HostRuntime) -> Result<(), Fail> {
    let alloc = rt.alloc();
    let row = |number| TableRefusal::Row(number);
    assert!(rt; refuses(alloc, b"98,2\n", row(1), "table row 1\n")?);
    let table = b"98,2,256,0,0,0,2,0\n";
    assert!(rt; refuses(alloc, table, row(1), "table row 1\n")?);
    let table = b"98,2,11,0,0,0,2,0\n*,2,11,0,0,0,2,0\n98,2,12,0,0,0,2";
    assert!(rt; refuses(alloc, table, row(3), "table row 3\n")?);
    let twice = b"98,2,11,0,0,0,2,0\n98,2,11,0,0,1,2,0\n";
    let refusal = TableRefusal::Duplicate(2);
    assert!(rt; refuses(alloc, twice, refusal, "table duplicate 2\n")?);
    // The table of surfaces is read after the parameter table; each is read in one call, and the next finds its end.
    for call in [1, 2, 3, 4] {
        let mut shelf = MemoryShelf::new(alloc, [call].to_vec(alloc)?);
        shelf.put("t", TABLE)?;
        shelf.put("s", b"98,128,167,1,0,0,0,0,2,0,103,0,2\n")?;
        let ran = run_unread(alloc, "migrate params=t surfaces=s", shelf)?;
        assert!(rt; ran.is(Outcome::ShelfFault, "", "shelf fault\n"));
    }
    Ok(())
}

#[test]
fn each_call_of_the_shelf_may_fail(rt: HostRuntime) -> Result<(), Fail> {
    let alloc = rt.alloc();
    // The table is read in one call, and the second finds its end.
    for call in [1, 2] {
        let mut shelf = MemoryShelf::new(alloc, [call].to_vec(alloc)?);
        shelf.put("t", TABLE)?;
        let mut ran = run_unread(alloc, "migrate params=t", shelf)?;
        assert!(rt; ran.is(Outcome::ShelfFault, "", "shelf fault\n"));
        assert_eq!(rt; ran.outcome.status(), 7);
        assert!(rt; is_unread(&mut ran.input));
    }
    let mut shelf = MemoryShelf::new(alloc, [3].to_vec(alloc)?);
    shelf.put("t", TABLE)?;
    let ran = run_with(alloc, "migrate params=t", FIRST_EDITION, 100, CALM, shelf)?;
    assert!(rt; ran.gave(Outcome::Done, MIGRATED, "messages 1 fields 1 written 183\n"));
    // Where the name is absent, a fault of the shelf comes first.
    let shelf = MemoryShelf::new(alloc, [1].to_vec(alloc)?);
    let ran = run_unread(alloc, "migrate params=t", shelf)?;
    assert!(rt; ran.is(Outcome::ShelfFault, "", "shelf fault\n"));
    Ok(())
}
