//! How a run ends.

ghost use Rattle.std.specs.Prelude.{◌≡◌};
ghost use Rattle.grib_stream.specs.Outcomes as outcomes;
ghost use Rattle.grib_stream.specs.Outcomes.{file_status, status_of};

use grib_base::{Fault, Reason, Refusal};
use grib_reasons::{Kept, TableRefusal};

/// Why an input is not compared with a file.
#[derive(Clone, Copy, Debug, PartialEq, Eq)]
pub enum FileRefusal {
    /// No file has this name.
    Absent,
    /// A message of the file is refused.
    Refused(Refusal),
}

impl FileRefusal {
    /// The exit status of the program.
    fn status(&self) -> u8
        ensures { result ≡ file_status self.now }
    {
        match self {
            FileRefusal::Absent => 4,
            FileRefusal::Refused(_) => 2,
        }
    }
}

/// How a run ends.
#[derive(Clone, Copy, Debug, PartialEq, Eq)]
pub enum Outcome {
    /// The input was read to its end, and all of it was answered.
    Done,
    /// The input was read to its end, and all of it was answered but what was skipped: this many refusals and
    /// this many messages that were not changed, one at least of both.
    Passed { refused: u64, kept: u64 },
    /// The input was read to its end, and not all of its fields are those of the file that it was compared with.
    Differs,
    /// The arguments are not valid: the first that is not, counted from 0, or the number of arguments.
    Usage(u64),
    /// A message is refused.
    Refused(Refusal),
    /// A message is accepted, and cannot be changed or printed as asked.
    Kept(Kept),
    /// The parameter table is refused. No input was read.
    TableRefused(TableRefusal),
    /// The table of surfaces is refused. No input was read.
    SurfacesRefused(TableRefusal),
    /// The file to compare with is refused. No input was read.
    FileRefused(FileRefusal),
    /// The input failed.
    ReadFault,
    /// The output or the notes failed.
    WriteFault,
    /// The shelf failed.
    ShelfFault,
    /// There is no memory.
    Memory,
    /// The input has more octets than are taken.
    InputTooLong,
}

impl Outcome {
    /// The exit status of the program.
    pub fn status(&self) -> u8
        ensures { result ≡ status_of self.now }
    {
        match self {
            Outcome::Done => 0,
            Outcome::Passed { refused, .. } => if *refused == 0 { 3 } else { 2 },
            Outcome::Differs => 12,
            Outcome::Usage(_) => 1,
            Outcome::Refused(_) => 2,
            Outcome::Kept(_) => 3,
            Outcome::TableRefused(_) | Outcome::SurfacesRefused(_) => 4,
            Outcome::FileRefused(refusal) => refusal.status(),
            Outcome::ReadFault => 5,
            Outcome::WriteFault => 6,
            Outcome::ShelfFault => 7,
            Outcome::Memory => 8,
            Outcome::InputTooLong => 9,
        }
    }
}

/// Whether octets are refused only for their end, so that more of them may be accepted.
pub fn is_truncated(fault: &Fault) -> bool
    ensures { result ≡ outcomes.is_truncated fault.now.reason }
{
    matches!(fault.reason, Reason::Truncated)
}
