//! A run for which there is no memory.

ghost use Rattle.std.specs.Prelude.{Some, true};

use grib_cli::run;
use grib_engine::Outcome;
use grib_io::{CalmSink, CalmSource, MemoryShelf, Sink, Stop};
use grib_samples::{PLAIN, edited};
use std::alloc::{AllocError, Global};
use std::test::Fail;

// A sink that has memory for this many writes.
#[derive(Drop)]
struct Scarce {
    sink: CalmSink,
    writes: u64,
    finishes: u64,
}

impl Sink for Scarce {
    ghost contents = { λ scarce. Some scarce.sink.octets };

    ghost faults = { λ _. 0 };

    ghost settled = { λ scarce. scarce.sink.settled };

    ghost takes_memory = { true };

    fn write(&mut self, piece: &[u8]) -> Result<usize, Stop> {
        if self.writes == 0 {
            return Err(Stop::Memory);
        }
        self.writes -= 1;
        self.sink.write(piece)
    }

    fn pass_on(&mut self) -> Result<(), Stop> {
        self.sink.pass_on()
    }

    fn finish(&mut self) -> Result<(), Stop> {
        self.finishes = self.finishes.saturating_add(1);
        self.sink.finish()
    }
}

#[test]
fn a_run_without_memory_is_noted_and_both_sinks_are_finished(rt: HostRuntime) -> Result<(), Fail> {
    let alloc = rt.alloc();
    // Five messages with a Section 7 of 70,008 octets, of which four are read: no two end in one piece.
    let mut message = edited(alloc, &PLAIN[..170], &[(14, 0x01), (15, 0x12), (16, 0x26)])?;
    message.extend_from_slice(&[0x00, 0x01, 0x11, 0x78, 7])?;
    message.resize(70_178, 0)?;
    message.extend_from_slice(b"7777")?;
    let mut octets = Vec::new(alloc);
    for _ in 0..5 {
        octets.extend_from_slice(message.as_slice())?;
    }
    let words = [String::from_str(alloc, "check")?];
    let mut input = CalmSource::new(octets, 50_000);
    let mut output = Scarce {
        sink: CalmSink::new(alloc, 1_000),
        writes: 2,
        finishes: 0,
    };
    let mut notes = Scarce {
        sink: CalmSink::new(alloc, 1_000),
        writes: 1,
        finishes: 0,
    };
    let mut shelf = MemoryShelf::new(alloc, Vec::new(alloc));
    let outcome = run(
        alloc,
        &words,
        &mut input,
        &mut output,
        &mut notes,
        &mut shelf,
    );
    let lines = "message 1 at 0 edition 2 octets 70182 fields 1\n\
                 message 2 at 70182 edition 2 octets 70182 fields 1\n";
    assert!(rt; outcome == Outcome::Memory);
    assert_eq!(rt; outcome.status(), 8);
    assert!(rt; output.sink.octets() == lines.as_bytes());
    assert!(rt; notes.sink.octets() == "memory\n".as_bytes());
    assert_eq!(rt; (output.finishes, notes.finishes), (1, 1));
    Ok(())
}
