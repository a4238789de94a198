//! A reader and a writer of std as a source and a sink.

ghost use Rattle.std.specs.Prelude.{◌≡◌, ◌<◌, true, false, ◌||◌, nat_lt, Ok, IfErr, IfOk, MatchResult, length};
ghost use Rattle.std.specs.Io.{ReadsAtMost, WritesAtMost};
ghost use Rattle.std.specs.Io.KnownBytes.{ReadConsumes, WriteAppends, Keeps};
ghost use Rattle.grib_io.specs.Outside.{CountsFailure, CountsStop, CountsStops, Settles};
ghost use Rattle.grib_io.specs.Memory.{next_count};

use crate::outside::{Failed, Sink, Source, Stop};
use std::io::{self, Read, Write};
use std::marker::Model;

/// A reader of std as a source. Each error of the reader is a fault, an interruption too.
#[derive(Debug, Drop)]
pub struct ReadSource<R> {
    reader: R,
    faults: u64,
    /// The first error of the reader.
    error: Option<io::Error>,
}

impl<R> Model for ReadSource<R> {
    ghost use Rattle.grib_io.specs.Adapters.{CountedReader};

    ghost Value = { CountedReader R };

    ghost view = { λ source. record { reader = source.reader; faults = source.faults } };
}

impl<R: Read> ReadSource<R> {
    /// A source over this reader, without a fault so far. It takes no memory.
    pub fn new(reader: R) -> ReadSource<R>
        ensures { result ≡ record { reader = reader; faults = 0 } }
    {
        ReadSource {
            reader,
            faults: 0,
            error: None,
        }
    }

    /// The first error of the reader, for its text.
    pub fn error(&self) -> Option<io::Error> {
        self.error
    }
}

impl<R: Read> Source for ReadSource<R> {
    ghost left = { λ source. R.remaining source.reader };

    ghost faults = { λ source. source.faults };

    fn read(&mut self, into: &mut [u8]) -> Result<usize, Failed>
        ensures bound { ReadsAtMost result into.new }
        ensures octets { ReadConsumes (R.remaining self.old.reader) (R.remaining self.new.reader)
            result into.new }
        ensures counted { CountsFailure result self.old.faults self.new.faults }
        ensures faults { MatchResult result (λ _. self.new.faults ≡ self.old.faults)
            (λ _. self.new.faults ≡ next_count self.old.faults) }
    {
        match self.reader.read(into) {
            Ok(count) => Ok(count),
            Err(error) => {
                self.faults = self.faults.saturating_add(1);
                self.error = self.error.or(Some(error));
                Err(Failed)
            }
        }
    }
}

/// A writer of std as a sink. Each error of the writer is a fault, an interruption too, and so is a
/// write of nothing of a piece that is not empty.
#[derive(Debug, Drop)]
pub struct WriteSink<W> {
    writer: W,
    faults: u64,
    settled: bool,
    /// Whether something was written that the writer was not yet made to pass on.
    held: bool,
    /// The first error of the writer.
    error: Option<io::Error>,
}

impl<W> Model for WriteSink<W> {
    ghost use Rattle.grib_io.specs.Adapters.{CountedWriter};

    ghost Value = { CountedWriter W };

    ghost view = { λ sink. record { writer = sink.writer; faults = sink.faults; settled = sink.settled; held = sink.held } };
}

impl<W: Write> WriteSink<W> {
    /// A sink over this writer, settled and without a fault so far. It takes no memory.
    pub fn new(writer: W) -> WriteSink<W>
        ensures { result ≡ record { writer = writer; faults = 0; settled = true; held = false } }
    {
        WriteSink {
            writer,
            faults: 0,
            settled: true,
            held: false,
            error: None,
        }
    }

    /// The first error of the writer, for its text.
    pub fn error(&self) -> Option<io::Error> {
        self.error
    }

    /// Counts a fault.
    fn fail(&mut self) -> Stop
        ensures answer { result ≡ Stop.Failed }
        ensures sink { self.new ≡ record self.old { faults = next_count self.old.faults } }
        ensures counted { CountsStop result self.old.faults self.new.faults }
    {
        self.faults = self.faults.saturating_add(1);
        Stop::Failed
    }

    /// Counts an error of the writer.
    fn fail_by(&mut self, error: io::Error) -> Stop
        ensures answer { result ≡ Stop.Failed }
        ensures sink { self.new ≡ record self.old { faults = next_count self.old.faults } }
        ensures counted { CountsStop result self.old.faults self.new.faults }
    {
        self.error = self.error.or(Some(error));
        self.fail()
    }
}

impl<W: Write> Sink for WriteSink<W> {
    ghost contents = { λ sink. W.contents sink.writer };

    ghost faults = { λ sink. sink.faults };

    ghost settled = { λ sink. sink.settled };

    ghost takes_memory = { false };

    fn write(&mut self, piece: &[u8]) -> Result<usize, Stop>
        ensures bound { WritesAtMost result piece.now }
        ensures some { IfOk result (λ count. 0 < length piece.now → 0 < count) }
        ensures octets { WriteAppends (W.contents self.old.writer) (W.contents self.new.writer)
            result piece.now }
        ensures settled { Settles result self.old.settled self.new.settled }
        ensures counted { CountsStops result self.old.faults self.new.faults }
        ensures stop { IfErr result (λ stop. stop ≡ Stop.Failed) }
        ensures faults { MatchResult result (λ _. self.new.faults ≡ self.old.faults)
            (λ _. self.new.faults ≡ next_count self.old.faults) }
        ensures held { MatchResult result (λ count. self.new.held ≡ (self.old.held || nat_lt 0 count))
            (λ _. self.new.held ≡ self.old.held) }
    {
        match self.writer.write(piece) {
            Ok(0) if !piece.is_empty() => Err(self.fail()),
            Ok(count) => {
                self.settled = self.settled && count == 0;
                self.held = self.held || count > 0;
                Ok(count)
            }
            Err(error) => Err(self.fail_by(error)),
        }
    }

    fn pass_on(&mut self) -> Result<(), Stop>
        ensures octets { Keeps (W.contents self.old.writer) (W.contents self.new.writer) }
        ensures settled { self.new.settled ≡ self.old.settled }
        ensures counted { CountsStops result self.old.faults self.new.faults }
        ensures stop { IfErr result (λ stop. stop ≡ Stop.Failed) }
        ensures faults { MatchResult result (λ _. self.new.faults ≡ self.old.faults)
            (λ _. self.new.faults ≡ next_count self.old.faults) }
        ensures held { MatchResult result (λ _. self.new.held ≡ false) (λ _. self.new.held ≡ self.old.held) }
        // The writer is not called where nothing was written since it last passed on what it held.
        ensures nothing { self.old.held ≡ false → (result ≡ Ok tt) × (self.new ≡ self.old) }
    {
        if !self.held {
            return Ok(());
        }
        match self.writer.flush() {
            Ok(()) => {
                self.held = false;
                Ok(())
            }
            Err(error) => Err(self.fail_by(error)),
        }
    }

    fn finish(&mut self) -> Result<(), Stop>
        ensures octets { Keeps (W.contents self.old.writer) (W.contents self.new.writer) }
        ensures settled { MatchResult result (λ _. self.new.settled ≡ true)
            (λ _. self.new.settled ≡ self.old.settled) }
        ensures counted { CountsStops result self.old.faults self.new.faults }
        ensures stop { IfErr result (λ stop. stop ≡ Stop.Failed) }
        ensures faults { MatchResult result (λ _. self.new.faults ≡ self.old.faults)
            (λ _. self.new.faults ≡ next_count self.old.faults) }
        ensures held { MatchResult result (λ _. self.new.held ≡ false) (λ _. self.new.held ≡ self.old.held) }
    {
        match self.writer.flush() {
            Ok(()) => {
                self.settled = true;
                self.held = false;
                Ok(())
            }
            Err(error) => Err(self.fail_by(error)),
        }
    }
}
