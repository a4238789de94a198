//! Why no file is read.

ghost use Rattle.std.specs.Prelude.{◌≡◌};
ghost use Rattle.grib_file.specs.Stops.{stop_of_read};
ghost use Rattle.grib_file.specs.declared.stop.FileStop.TheVariants.{Memory};

use grib_io::ReadStop;
use grib_stream::FileRefusal;
use std::alloc::AllocError;
use thiserror::Error;

/// Why no file is read.
#[derive(Clone, Copy, Debug, PartialEq, Eq, Error)]
pub enum FileStop {
    /// The name is absent, or a message of what stands under it is refused.
    #[error("file refused")]
    Refused(FileRefusal),
    /// The shelf failed.
    #[error("shelf fault")]
    ShelfFault,
    /// There is no memory.
    #[error("out of memory")]
    Memory,
}

impl From<AllocError> for FileStop {
    ghost from_gives = { λ _ stop. stop ≡ Memory };

    fn from(_error: AllocError) -> FileStop {
        FileStop::Memory
    }
}

impl From<ReadStop> for FileStop {
    ghost from_gives = { λ read stop. stop ≡ stop_of_read read };

    fn from(stop: ReadStop) -> FileStop {
        match stop {
            ReadStop::Absent => FileStop::Refused(FileRefusal::Absent),
            ReadStop::Failed => FileStop::ShelfFault,
            ReadStop::Memory => FileStop::Memory,
        }
    }
}
