//! A job over devices that fail, to the limit of an input, and without memory.

ghost use Rattle.std.specs.Prelude.{◌≤◌, ◌^◌};

use grib_base::Profile;
use grib_engine::{Answering, ByOutput, Checking, Job, Outcome, Totals, close, serve};
use grib_io::{CalmSink, CalmSource, MemoryShelf, MemorySink, MemorySource, Sink};
use grib_items::{ItemTotals, Policy, answer_items};
use grib_samples::{PLAIN, TWO_FIELDS};
use std::alloc::{AllocError, Global};
use std::test::Fail;

/// Three octets, a message, five octets, a message, two octets: 445 in all.
pub(crate) fn stream(alloc: Global) -> Result<Vec<u8>, AllocError> {
    let mut octets = b"GRI".to_vec(alloc)?;
    octets.extend_from_slice(&PLAIN)?;
    octets.extend_from_slice(b"GRGRI")?;
    octets.extend_from_slice(&TWO_FIELDS)?;
    octets.extend_from_slice(b"GR")?;
    Ok(octets)
}

/// What `check` prints of the first message of the stream, and of both.
const FIRST: &[u8] = b"message 1 at 3 edition 2 octets 183 fields 1\n";

const BOTH: &[u8] =
    b"message 1 at 3 edition 2 octets 183 fields 1\nmessage 2 at 191 edition 2 octets 252 fields 2\n";

const ALL: &[u8] =
    b"message 1 at 3 edition 2 octets 183 fields 1\nmessage 2 at 191 edition 2 octets 252 fields 2\nmessages 2 fields 3 skipped 10\n";

/// What is printed of the messages of the stream that end within this many octets.
fn within(octets: u64) -> &'static [u8] {
    if octets < 186 {
        b""
    } else if octets < 443 {
        FIRST
    } else {
        BOTH
    }
}

/// Checks the messages of an input, of which this many octets are answered at most.
fn check_within(
    alloc: Global,
    limit: u64,
    input: &mut CalmSource,
    output: &mut CalmSink,
) -> Result<ItemTotals, Outcome>
    requires { limit ≤ 2 ^ 40 }
{
    let answering = Answering {
        answerer: &ByOutput(Checking),
        profile: Profile::Stated,
    };
    let policy = Policy {
        refused: None,
        kept: None,
    };
    let mut notes = CalmSink::new(alloc, 100);
    let mut shelf = MemoryShelf::new(alloc, Vec::new(alloc));
    answer_items(
        &answering, alloc, policy, limit, input, output, &mut notes, &mut shelf,
    )
}

#[test]
fn an_input_past_the_limit_is_answered_to_it(rt: HostRuntime) -> Result<(), Fail> {
    for limit in 0..445 {
        let mut input = CalmSource::new(stream(rt.alloc())?, 13);
        let mut output = CalmSink::new(rt.alloc(), 100);
        let outcome = check_within(rt.alloc(), limit, &mut input, &mut output);
        assert!(rt; outcome == Err(Outcome::InputTooLong));
        assert!(rt; output.octets() == within(limit));
    }
    Ok(())
}

#[test]
fn an_input_as_long_as_the_limit_is_answered(rt: HostRuntime) -> Result<(), Fail> {
    let mut input = CalmSource::new(stream(rt.alloc())?, 13);
    let mut output = CalmSink::new(rt.alloc(), 100);
    let outcome = check_within(rt.alloc(), 445, &mut input, &mut output);
    let totals = ItemTotals {
        counted: Totals {
            messages: 2,
            fields: 3,
            skipped: 10,
            written: 0,
        },
        refused: 0,
        kept: 0,
    };
    assert!(rt; outcome == Ok(totals));
    assert!(rt; output.octets() == ALL);
    Ok(())
}

#[test]
fn what_was_taken_is_answered_where_a_read_fails(rt: HostRuntime) -> Result<(), Fail> {
    for call in 1..24 {
        let mut input = MemorySource::new(stream(rt.alloc())?, 20, [call].to_vec(rt.alloc())?);
        let mut output = CalmSink::new(rt.alloc(), 100);
        let mut notes = CalmSink::new(rt.alloc(), 100);
        let mut shelf = MemoryShelf::new(rt.alloc(), Vec::new(rt.alloc()));
        let outcome = serve(
            rt.alloc(),
            &Job::Check,
            &mut input,
            &mut output,
            &mut notes,
            &mut shelf,
        );
        assert!(rt; outcome == Outcome::ReadFault);
        assert!(rt; output.octets() == within(20 * (call - 1)));
        assert!(rt; notes.octets() == "read fault\n".as_bytes());
    }
    Ok(())
}

#[test]
fn nothing_is_written_after_an_output_that_fails(rt: HostRuntime) -> Result<(), Fail> {
    // Three lines of 45, 46 and 31 octets in pieces of 40, and the end.
    for call in 1..7 {
        let mut input = CalmSource::new(stream(rt.alloc())?, 50);
        let mut output = MemorySink::new(rt.alloc(), 40, [call].to_vec(rt.alloc())?);
        let mut notes = CalmSink::new(rt.alloc(), 100);
        let mut shelf = MemoryShelf::new(rt.alloc(), Vec::new(rt.alloc()));
        let outcome = serve(
            rt.alloc(),
            &Job::Check,
            &mut input,
            &mut output,
            &mut notes,
            &mut shelf,
        );
        assert!(rt; outcome == Outcome::WriteFault);
        assert!(rt; ALL.starts_with(output.octets()));
        assert!(rt; notes.octets() == "".as_bytes());
    }
    Ok(())
}

#[test]
fn want_of_memory_is_noted_and_both_sinks_are_finished(rt: HostRuntime) -> Result<(), Fail> {
    let mut output = CalmSink::new(rt.alloc(), 9);
    let mut notes = CalmSink::new(rt.alloc(), 9);
    output.write(b"lines\n")?;
    let outcome = close(Outcome::Memory, b"memory\n", &mut output, &mut notes);
    assert!(rt; outcome == Outcome::Memory);
    assert!(rt; output.octets() == "lines\n".as_bytes());
    assert!(rt; notes.octets() == "memory\n".as_bytes());
    Ok(())
}
