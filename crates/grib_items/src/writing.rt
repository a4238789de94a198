//! Octets on their way to a sink.

ghost use Rattle.std.specs.Prelude.{◌≡◌, cond, [], length, IfOk};
ghost use Rattle.grib_io.specs.Outside.{Unfinished};
ghost use Rattle.grib_items.specs.Writing.{Writes};

use grib_io::{Sink, Stop};
use grib_stream::Outcome;

/// Writes the whole piece.
pub(crate) fn write_whole<T: Sink>(sink: &mut T, piece: &[u8]) -> Result<(), Outcome>
    ensures writes { Writes result (T.contents sink.old) (T.contents sink.new) piece.now
        (T.faults sink.old) (T.faults sink.new) }
    ensures unfinished { Unfinished (T.settled sink.old) (T.settled sink.new) }
{
    let mut written = 0;
    while written < piece.len() {
        match sink.write(&piece[written..]) {
            Ok(count) => written += count,
            Err(Stop::Failed) => return Err(Outcome::WriteFault),
            Err(Stop::Memory) => return Err(Outcome::Memory),
        }
    }
    Ok(())
}

/// Writes the octets where they are copied, and answers how many were written.
pub(crate) fn write_where<T: Sink>(
    copied: bool,
    octets: &[u8],
    output: &mut T,
) -> Result<u64, Outcome>
    ensures writes { Writes result (T.contents output.old) (T.contents output.new) (cond copied octets.now [])
        (T.faults output.old) (T.faults output.new) }
    ensures unfinished { Unfinished (T.settled output.old) (T.settled output.new) }
    ensures count { IfOk result (λ written. written ≡ length (cond copied octets.now [])) }
{
    if !copied {
        return Ok(0);
    }
    write_whole(output, octets)?;
    Ok(octets.len() as u64)
}

/// Passes on what was written, so that whoever reads from the sink has it.
pub(crate) fn pass_on<T: Sink>(sink: &mut T) -> Result<(), Outcome>
    ensures writes { Writes result (T.contents sink.old) (T.contents sink.new) []
        (T.faults sink.old) (T.faults sink.new) }
    ensures unfinished { Unfinished (T.settled sink.old) (T.settled sink.new) }
{
    match sink.pass_on() {
        Ok(()) => Ok(()),
        Err(Stop::Failed) => Err(Outcome::WriteFault),
        Err(Stop::Memory) => Err(Outcome::Memory),
    }
}
