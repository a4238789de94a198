//! `check`, and `dump` of many points, where a call of a device fails.

use crate::in_memory::{CALM, Failing, run_over};
use grib_base::{Fault, Reason, Refusal};
use grib_engine::Outcome;
use grib_io::{ReadSource, Source};
use grib_samples::{PLAIN, edited};
use std::alloc::{AllocError, Global};
use std::test::Fail;

const CHECKED: &str =
    "message 1 at 0 edition 2 octets 183 fields 1\nmessages 1 fields 1 skipped 0\n";

fn refused(octet: u64, reason: Reason, detail: u64) -> Outcome {
    Outcome::Refused(Refusal {
        message: 1,
        fault: Fault {
            octet,
            reason,
            detail,
        },
    })
}

// The message twice, after a heading of 12 octets and before five zeros.
fn stream(alloc: Global) -> Result<Vec<u8>, AllocError> {
    let mut octets = b"SXXX01 EDZW\n".to_vec(alloc)?;
    octets.extend_from_slice(&PLAIN)?;
    octets.extend_from_slice(&PLAIN)?;
    octets.extend_from_slice(&[0; 5])?;
    Ok(octets)
}

const STREAM_CHECKED: &str = "message 1 at 12 edition 2 octets 183 fields 1\n\
                              message 2 at 195 edition 2 octets 183 fields 1\n\
                              messages 2 fields 2 skipped 17\n";

// The first of these lines, and the first two.
const FIRST_LINE: &str = "message 1 at 12 edition 2 octets 183 fields 1\n";

const BOTH_LINES: &str = "message 1 at 12 edition 2 octets 183 fields 1\n\
                          message 2 at 195 edition 2 octets 183 fields 1\n";

#[test]
fn each_read_may_fail(rt: HostRuntime) -> Result<(), Fail> {
    // 383 octets in pieces of 50 at most, and the read that finds the end. The messages end after 195 and
    // after 378 octets.
    let octets = stream(rt.alloc())?;
    for input in 1..10u64 {
        let text = match input {
            1..=4 => "",
            5..=8 => FIRST_LINE,
            _ => BOTH_LINES,
        };
        let failing = Failing { input, ..CALM };
        let checked = run_over(rt.alloc(), "check", octets.as_slice(), 50, failing)?;
        assert!(rt; checked.is(Outcome::ReadFault, text, "read fault\n"));
    }
    let failing = Failing { input: 10, ..CALM };
    let checked = run_over(rt.alloc(), "check", octets.as_slice(), 50, failing)?;
    assert!(rt; checked.is(Outcome::Done, STREAM_CHECKED, ""));
    Ok(())
}

#[test]
fn each_write_may_fail(rt: HostRuntime) -> Result<(), Fail> {
    // The output takes 30 and 15 octets of the line of the message, then 30 of the last one, and is then
    // finished.
    for (output, front) in [
        (1, ""),
        (2, "message 1 at 0 edition 2 octet"),
        (3, "message 1 at 0 edition 2 octets 183 fields 1\n"),
        (4, CHECKED),
    ] {
        let checked = run_over(rt.alloc(), "check", &PLAIN, 30, Failing { output, ..CALM })?;
        assert!(rt; checked.is(Outcome::WriteFault, front, ""));
    }
    let failing = Failing { output: 5, ..CALM };
    let checked = run_over(rt.alloc(), "check", &PLAIN, 30, failing)?;
    assert!(rt; checked.is(Outcome::Done, CHECKED, ""));
    Ok(())
}

#[test]
fn each_call_of_the_notes_may_fail(rt: HostRuntime) -> Result<(), Fail> {
    // The note has 40 octets; then the notes are finished.
    let note = "refused message 1 octet 11 Truncated 10\n";
    for (notes, front) in [(1, ""), (2, "refused message 1 octet 11 Tru"), (3, note)] {
        let failing = Failing { notes, ..CALM };
        let refusal = run_over(rt.alloc(), "check", &PLAIN[..10], 30, failing)?;
        assert!(rt; refusal.is(Outcome::WriteFault, "", front));
    }
    let failing = Failing { notes: 4, ..CALM };
    let refusal = run_over(rt.alloc(), "check", &PLAIN[..10], 30, failing)?;
    assert!(rt; refusal.is(refused(11, Reason::Truncated, 10), "", note));
    Ok(())
}

// The message with numbers of no bits and a Section 7 of 5 octets, so of 179 octets, and with these other octets.
fn without_bits(alloc: Global, edits: &[(usize, u8)]) -> Result<Vec<u8>, AllocError> {
    let mut octets = PLAIN[..175].to_vec(alloc)?;
    octets.extend_from_slice(b"7777")?;
    let octets = edited(alloc, octets.as_slice(), &[(16, 179), (163, 0), (174, 5)])?;
    edited(alloc, octets.as_slice(), edits)
}

#[test]
fn lines_are_passed_on_before_the_last(rt: HostRuntime) -> Result<(), Fail> {
    // A field of 200 by 100 points, whose lines take 148,000 octets: the second write of them fails.
    let edits = [
        (46, 0x4e),
        (47, 0x20),
        (71, 200),
        (75, 100),
        (151, 0x4e),
        (152, 0x20),
    ];
    let octets = without_bits(rt.alloc(), &edits)?;
    let failing = Failing { output: 2, ..CALM };
    let dumped = run_over(rt.alloc(), "dump", octets.as_slice(), 1_000_000, failing)?;
    assert!(rt; dumped.outcome == Outcome::WriteFault);
    assert!(rt; !dumped.output.octets().is_empty());
    assert!(rt; dumped.output.octets().len() < 100_000);
    Ok(())
}

#[test]
fn a_read_without_room_is_no_fault(rt: HostRuntime) {
    let octets = [5u8, 6];
    let mut source = ReadSource::new(octets.as_slice());
    let mut none = [0u8; 0];
    assert!(rt; Source::read(&mut source, &mut none) == Ok(0));
    let mut room = [0u8; 3];
    assert!(rt; Source::read(&mut source, &mut room) == Ok(2));
    assert_eq!(rt; room, [5, 6, 0]);
}
