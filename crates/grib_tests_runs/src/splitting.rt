//! `split` to a shelf that fails.

use crate::engine::stream;
use grib_engine::{Job, Name, Outcome, serve};
use grib_io::{CalmSink, CalmSource, MemoryShelf};
use grib_samples::{
    FIRST_VALUES, GRID, IDENTIFICATION, OWN_BITMAP, PLAIN, PRODUCT, SECOND_VALUES, THREE_NUMBERS,
    message_of,
};
use std::alloc::{AllocError, Global};
use std::process::Abort;
use std::test::Fail;

/// The first field of the message of two, alone.
fn first_part(alloc: Global) -> Result<Vec<u8>, AllocError> {
    let sections = [
        IDENTIFICATION,
        GRID,
        PRODUCT,
        THREE_NUMBERS,
        OWN_BITMAP,
        FIRST_VALUES,
    ];
    message_of(alloc, 183, &sections)
}

/// The second one, which has the bitmap of the first.
fn second_part(alloc: Global) -> Result<Vec<u8>, AllocError> {
    let sections = [
        IDENTIFICATION,
        GRID,
        PRODUCT,
        THREE_NUMBERS,
        OWN_BITMAP,
        SECOND_VALUES,
    ];
    message_of(alloc, 183, &sections)
}

/// Whether the name has these octets.
fn has(shelf: &MemoryShelf, name: &str, octets: &[u8]) -> bool {
    match shelf.octets(name) {
        Some(held) => held == octets,
        None => false,
    }
}

/// What `split out=p` answers to this input, with this note, and nothing for the output.
fn split(
    abort: &impl Abort,
    alloc: Global,
    octets: Vec<u8>,
    shelf: &mut MemoryShelf,
    note: &[u8],
) -> Result<Outcome, Fail> {
    let job = Job::Split {
        name: Name::of(String::from_str(alloc, "p")?),
        edition_1: false,
    };
    let mut input = CalmSource::new(octets, 100);
    let mut output = CalmSink::new(alloc, 100);
    let mut notes = CalmSink::new(alloc, 100);
    let outcome = serve(alloc, &job, &mut input, &mut output, &mut notes, shelf);
    assert!(abort; output.octets() == "".as_bytes());
    assert!(abort; notes.octets() == note);
    Ok(outcome)
}

#[test]
fn a_shelf_that_fails_keeps_the_names_before(rt: HostRuntime) -> Result<(), Fail> {
    // Three fields of two messages, each of which makes its name and adds to it; the eighth call is none.
    let parts = [
        ("p.1", PLAIN.to_vec(rt.alloc())?),
        ("p.2", first_part(rt.alloc())?),
        ("p.3", second_part(rt.alloc())?),
    ];
    for call in 1..8 {
        let mut shelf = MemoryShelf::new(rt.alloc(), [call].to_vec(rt.alloc())?);
        let (expected, note) = if call < 7 {
            (Outcome::ShelfFault, "shelf fault\n")
        } else {
            (Outcome::Done, "messages 2 fields 3 written 549\n")
        };
        let outcome = split(
            &rt,
            rt.alloc(),
            stream(rt.alloc())?,
            &mut shelf,
            note.as_bytes(),
        )?;
        assert!(rt; outcome == expected);
        for (index, (name, octets)) in parts.iter().enumerate() {
            let made = 2 * index as u64 + 1;
            if call > made + 1 {
                assert!(rt; has(&shelf, name, octets.as_slice()));
            } else if call == made + 1 {
                assert!(rt; has(&shelf, name, b""));
            } else {
                assert!(rt; shelf.octets(name).is_none());
            }
        }
    }
    Ok(())
}
