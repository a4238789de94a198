//! The command `grib`: standard input, output and error, and the files, around the top call.
#![tactic(auto)]

ghost use Rattle.std.specs.Prelude.{◌≡◌, ◌≢◌};
ghost use Rattle.std.specs.IoError.{error_kind};
ghost use Rattle.std.specs.declared.io.ErrorKind.TheVariants.{OutOfMemory};

mod failures;

use crate::failures::tell_failure;
use grib_cli::run;
use grib_engine::Outcome;
use grib_io::{FileShelf, ReadSource, WriteSink};
use std::io::BufWriter;
use std::process::ExitCode;
use std::{env, io};

/// The exit status where the arguments can't be fetched, for another cause than that there is no memory.
const NO_WORDS: u8 = 11;

/// How many octets of the output wait for more before they are written.
const HELD_BACK: usize = 65_536;

fn main(rt: HostRuntime) -> ExitCode {
    let words = match fetch_words(&rt) {
        Ok(words) => words,
        Err(error) => return ExitCode::from(status_of(&error)),
    };
    let mut input = ReadSource::new(rt.stdin());
    let Ok(mut buffered) = BufWriter::with_capacity(rt.alloc(), HELD_BACK, rt.stdout()) else {
        return ExitCode::from(Outcome::Memory.status());
    };
    let mut output = WriteSink::new(&mut buffered);
    let mut notes = WriteSink::new(rt.stderr());
    let mut shelf = FileShelf::new(&rt).with_names(rt.alloc());
    let outcome = run(
        rt.alloc(),
        words.as_slice(),
        &mut input,
        &mut output,
        &mut notes,
        &mut shelf,
    );
    tell_failure(&rt, "input", input.error());
    tell_failure(&rt, "output", output.error());
    tell_failure(&rt, shelf.failed_name().unwrap_or("file"), shelf.error());
    // Where the output failed, what still waits is let go: a drop of the buffer would try it once more.
    let (_stdout, _waiting) = buffered.into_parts();
    ExitCode::from(outcome.status())
}

/// The arguments after the program's name.
fn fetch_words(rt: &HostRuntime) -> io::Result<Vec<String>> {
    let mut words = Vec::new(rt.alloc());
    for word in env::args(rt)?.skip(1) {
        words.push(word)?;
    }
    Ok(words)
}

/// The exit status where the arguments can't be fetched.
fn status_of(error: &io::Error) -> u8
    ensures memory { error_kind error.now ≡ OutOfMemory → result ≡ 8 }
    ensures other { error_kind error.now ≢ OutOfMemory → result ≡ 11 }
{
    match error.kind() {
        io::ErrorKind::OutOfMemory => Outcome::Memory.status(),
        _ => NO_WORDS,
    }
}
