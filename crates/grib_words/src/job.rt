//! The job that the arguments ask for.

ghost use Rattle.std.specs.Prelude.{◌≡◌, map, string_bytes, IfOk};
ghost use Rattle.grib_command.specs.Jobs.{IsJob};
ghost use Rattle.grib_words.specs.Words.{IsAsked};
ghost use Rattle.grib_words.specs.declared.job.JobFault.TheVariants.{Memory};

use crate::asking::job_of_command;
use crate::reading::read_words;
use grib_command::Job;
use std::alloc::{AllocError, Global};
use thiserror::Error;

/// Why the arguments ask for no job.
#[derive(Clone, Copy, Debug, PartialEq, Eq, Error)]
pub enum JobFault {
    /// They are not valid: the place of the first argument that is not, from 0 for the command on, or
    /// the number of arguments where one that is needed is missing.
    #[error("usage word {0}")]
    Usage(u64),
    /// There is no memory.
    #[error("out of memory")]
    Memory,
}

impl From<AllocError> for JobFault {
    ghost from_gives = { λ _ fault. fault ≡ Memory };

    fn from(_error: AllocError) -> JobFault {
        JobFault::Memory
    }
}

/// The job that the arguments ask for. It is one that there is. `help` with arguments after it asks for none: there is
/// something to tell of them.
pub fn job_of(alloc: Global, words: &[String]) -> Result<Job, JobFault>
    ensures asked { IsAsked result (map string_bytes words.now) }
    ensures is_job { IfOk result IsJob }
{
    match read_words(words) {
        Ok(command) => job_of_command(alloc, command, &words[1..]),
        Err(word) => Err(JobFault::Usage(word)),
    }
}
