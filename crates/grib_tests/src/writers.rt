//! What a sink asks of a writer of std: no clause can say that it is flushed, nor that a long piece is taken.

use grib_io::{Sink, Stop, WriteSink};
use std::io::{self, Write};
use std::test::Fail;

/// A writer that takes some octets at most in a write, fails in one of its flushes, and counts its calls.
#[derive(Drop)]
struct Counting {
    most: usize,
    refused: u32,
    octets: usize,
    writes: u32,
    flushes: u32,
}

impl Counting {
    /// A writer that takes `most` octets at most, and whose flush `refused` fails, counted from 1.
    fn new(most: usize, refused: u32) -> Counting {
        Counting {
            most,
            refused,
            octets: 0,
            writes: 0,
            flushes: 0,
        }
    }
}

impl Write for Counting {
    fn write(&mut self, buf: &[u8]) -> io::Result<usize> {
        let count = buf.len().min(self.most);
        self.writes = self.writes.saturating_add(1);
        self.octets = self.octets.saturating_add(count);
        Ok(count)
    }

    fn flush(&mut self) -> io::Result<()> {
        self.flushes = self.flushes.saturating_add(1);
        if self.flushes == self.refused {
            return Err(io::Error::from(io::ErrorKind::BrokenPipe));
        }
        Ok(())
    }
}

#[test]
fn each_end_is_one_flush_and_a_write_is_none(rt: HostRuntime) {
    let mut counting = Counting::new(3, 0);
    let mut sink = WriteSink::new(&mut counting);
    assert_eq!(rt; sink.write(&[1, 2]), Ok(2));
    assert_eq!(rt; sink.write(&[3, 4, 5, 6]), Ok(3));
    drop(sink);
    assert_eq!(rt; counting.flushes, 0);
    let mut sink = WriteSink::new(&mut counting);
    assert_eq!(rt; sink.finish(), Ok(()));
    assert_eq!(rt; sink.finish(), Ok(()));
    drop(sink);
    assert_eq!(rt; counting.writes, 2);
    assert_eq!(rt; counting.flushes, 2);
}

#[test]
fn a_refused_flush_is_a_fault_and_the_next_is_tried(rt: HostRuntime) {
    let mut counting = Counting::new(3, 1);
    let mut sink = WriteSink::new(&mut counting);
    assert_eq!(rt; sink.finish(), Err(Stop::Failed));
    assert_eq!(rt; sink.finish(), Ok(()));
    drop(sink);
    assert_eq!(rt; counting.flushes, 2);
}

// Refuses a body of `write` that gives up at a long piece.
#[test]
fn a_long_piece_is_taken(rt: HostRuntime) -> Result<(), Fail> {
    let piece = vec![in rt.alloc(); 7u8; 200_000]?;
    for (most, count) in [(3, 3), (65_536, 65_536), (1_000_000, 200_000)] {
        let mut counting = Counting::new(most, 0);
        let mut sink = WriteSink::new(&mut counting);
        assert_eq!(rt; sink.write(piece.as_slice()), Ok(count));
        assert_eq!(rt; sink.write(piece.as_slice()), Ok(count));
        drop(sink);
        assert_eq!(rt; counting.writes, 2);
        assert_eq!(rt; counting.octets, count.saturating_mul(2));
    }
    Ok(())
}
