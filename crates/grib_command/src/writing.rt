//! Octets on their way to a sink.

ghost use Rattle.std.specs.Prelude.{◌≡◌, false, length, IfOk, IfErr, MatchResult};
ghost use Rattle.grib_io.specs.Outside.{Unfinished};
ghost use Rattle.grib_command.specs.Closing.{settled_after};
ghost use Rattle.grib_command.specs.Pending.{WritesTo};

use grib_io::{Sink, Stop};

/// Writes the whole piece.
pub fn write_whole<T: Sink>(sink: &mut T, piece: &[u8]) -> Result<(), Stop>
    ensures writes { WritesTo T.contents T.faults T.settled result sink.old sink.new piece.now }
    ensures settled { MatchResult result
        (λ _. T.settled sink.new ≡ settled_after (T.settled sink.old) piece.now)
        (λ _. Unfinished (T.settled sink.old) (T.settled sink.new)) }
    ensures memory { T.takes_memory ≡ false → IfErr result (λ stop. stop ≡ Stop.Failed) }
{
    let mut written = 0;
    while written < piece.len() {
        written += sink.write(&piece[written..])?;
    }
    Ok(())
}

/// Writes the whole piece, and answers how many octets it has.
pub fn write_counted<T: Sink>(sink: &mut T, piece: &[u8]) -> Result<u64, Stop>
    ensures writes { WritesTo T.contents T.faults T.settled result sink.old sink.new piece.now }
    ensures count { IfOk result (λ count. count ≡ length piece.now) }
{
    write_whole(sink, piece)?;
    Ok(piece.len() as u64)
}
