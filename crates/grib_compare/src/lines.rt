//! The lines of a message.

ghost use Rattle.std.specs.Prelude.{◌≡◌, ◌+◌, ◌<◌, ◌^◌, ◌++◌, [], OnOk, IfOk};
ghost use Rattle.grib_command.specs.Pending.{WritesTo};
ghost use Rattle.grib_compare.specs.Command as commands;

use crate::comparison::Comparison;
use grib_command::write_whole;
use grib_io::{Sink, Stop};
use std::alloc::{AllocError, Global};

/// The lines of the fields of a message, and how many of them differ.
#[derive(Debug, Drop)]
pub(crate) struct Lines {
    text: Vec<u8>,
    differing: u32,
}

impl Lines {
    /// No lines.
    pub(crate) fn new(alloc: Global) -> Lines
        ensures text { result.text.items ≡ [] }
        ensures none { result.differing ≡ 0 }
    {
        Lines {
            text: Vec::new(alloc),
            differing: 0,
        }
    }

    /// Appends the line on a field of the message with this number, of which this is said, if it has a counterpart. A field
    /// that is the same has no line where it is quiet.
    ///
    /// # Errors
    ///
    /// There is no memory.
    pub(crate) fn append(
        &mut self,
        alloc: Global,
        quiet: bool,
        message: u64,
        field: u32,
        comparison: Option<Comparison>,
    ) -> Result<(), AllocError>
        requires room { self.old.differing + 1 < 2 ^ 32 }
        ensures text { OnOk result (self.new.text.items
            ≡ self.old.text.items ++ commands.line_beside quiet message field comparison) }
        ensures count { OnOk result (self.new.differing
            ≡ self.old.differing + commands.differing_beside comparison) }
    {
        let Some(comparison) = comparison else {
            return Ok(());
        };
        if quiet && comparison == Comparison::Same {
            return Ok(());
        }
        let line = comparison.line(alloc, message, field)?;
        self.text.extend_from_slice(line.as_bytes())?;
        self.differing += comparison.differing();
        Ok(())
    }

    /// Writes them, and answers how many fields differ.
    pub(crate) fn write<T: Sink>(&self, output: &mut T) -> Result<u64, Stop>
        ensures writes { WritesTo T.contents T.faults T.settled result output.old output.new self.now.text.items }
        ensures count { IfOk result (λ count. count ≡ self.now.differing) }
    {
        write_whole(output, self.text.as_slice())?;
        Ok(u64::from(self.differing))
    }
}
