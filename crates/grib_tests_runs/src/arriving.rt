//! How much of the input is taken by messages that are judged as they come.

use crate::in_memory::{CALM, Failing, run_over};
use grib_base::{Fault, Reason, Refusal};
use grib_engine::Outcome;
use grib_io::Source;
use grib_samples::{PLAIN, edited};
use std::alloc::{AllocError, Global};
use std::test::Fail;

// The message with source 1 of its grid, which states 1,000,000 octets, and zeros up to there.
fn refused_early(alloc: Global) -> Result<Vec<u8>, AllocError> {
    let edits = [(14, 0x0f), (15, 0x42), (16, 0x40), (43, 1)];
    let mut octets = edited(alloc, &PLAIN, &edits)?;
    octets.resize(1_000_000, 0)?;
    Ok(octets)
}

// The message is refused at its octet 109, so that no more than 65,645 octets may be taken.
#[test]
fn a_refusal_comes_before_the_message_is_read(rt: HostRuntime) -> Result<(), Fail> {
    let octets = refused_early(rt.alloc())?;
    let outcome = Outcome::Refused(Refusal {
        message: 1,
        fault: Fault {
            octet: 43,
            reason: Reason::GridSource,
            detail: 1,
        },
    });
    let mut checked = run_over(rt.alloc(), "check", octets.as_slice(), 1_000_000, CALM)?;
    assert!(rt; checked.is(outcome, "", "refused message 1 octet 43 GridSource 1\n"));

    let mut piece = Vec::new(rt.alloc());
    piece.resize(65_536, 0)?;
    let mut left = 0usize;
    for _ in 0..16 {
        if let Ok(count) = checked.input.read(piece.as_mut_slice()) {
            left = left.saturating_add(count);
        }
    }
    assert!(rt; left >= 934_355);
    Ok(())
}

// The message with a Section 7 of 70,008 octets, of which four are read, and then once more: 70,182 octets each.
fn two_long_messages(alloc: Global) -> Result<Vec<u8>, AllocError> {
    let mut message = edited(alloc, &PLAIN[..170], &[(14, 0x01), (15, 0x12), (16, 0x26)])?;
    message.extend_from_slice(&[0x00, 0x01, 0x11, 0x78, 7])?;
    message.resize(70_178, 0)?;
    message.extend_from_slice(b"7777")?;
    let mut octets = message.as_slice().to_vec(alloc)?;
    octets.extend_from_slice(message.as_slice())?;
    Ok(octets)
}

#[test]
fn a_read_within_a_long_message_may_fail(rt: HostRuntime) -> Result<(), Fail> {
    let octets = two_long_messages(rt.alloc())?;
    let failing = Failing { input: 2, ..CALM };
    let checked = run_over(rt.alloc(), "check", octets.as_slice(), 1_000, failing)?;
    assert!(rt; checked.is(Outcome::ReadFault, "", "read fault\n"));
    Ok(())
}
