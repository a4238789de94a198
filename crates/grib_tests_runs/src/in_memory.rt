//! Runs of the command in memory: arguments, octets that come and go in pieces, and calls that fail.

ghost use Rattle.std.specs.Prelude.{◌≤◌};

use grib_cli::run;
use grib_engine::Outcome;
use grib_io::{MemoryShelf, MemorySink, MemorySource};
use grib_samples::TABLE;
use std::alloc::{AllocError, Global};

/// The calls of the input, of the output and of the notes that fail, counted from 1; 0 is none.
#[derive(Clone, Copy)]
pub struct Failing {
    pub input: u64,
    pub output: u64,
    pub notes: u64,
}

/// No call fails.
pub const CALM: Failing = Failing {
    input: 0,
    output: 0,
    notes: 0,
};

/// How a run ended, what it wrote, and what it left.
#[derive(Drop)]
pub struct Ran {
    pub outcome: Outcome,
    pub input: MemorySource,
    pub output: MemorySink,
    pub notes: MemorySink,
    pub shelf: MemoryShelf,
}

impl Ran {
    /// Whether it ended so, with this text as output and these notes.
    pub fn is(&self, outcome: Outcome, output: &str, notes: &str) -> bool {
        self.gave(outcome, output.as_bytes(), notes)
    }

    /// Whether it ended so, with these octets as output and these notes.
    pub fn gave(&self, outcome: Outcome, output: &[u8], notes: &str) -> bool {
        self.outcome == outcome
            && self.output.octets() == output
            && self.notes.octets() == notes.as_bytes()
    }
}

/// A run of arguments, with spaces between them, over octets that come and go in pieces of this size, with nothing on the
/// shelf.
///
/// # Errors
///
/// There is no memory for the words, or for a copy of the octets.
pub fn run_over(
    alloc: Global,
    text: &str,
    octets: &[u8],
    piece: usize,
    failing: Failing,
) -> Result<Ran, AllocError>
    requires { 1 ≤ piece }
{
    let shelf = MemoryShelf::new(alloc, Vec::new(alloc));
    run_with(alloc, text, octets, piece, failing, shelf)
}

/// A run of arguments, with spaces between them, over octets that come and go in pieces of this size, with this shelf.
///
/// # Errors
///
/// There is no memory for the words, or for a copy of the octets.
pub fn run_with(
    alloc: Global,
    text: &str,
    octets: &[u8],
    piece: usize,
    failing: Failing,
    shelf: MemoryShelf,
) -> Result<Ran, AllocError>
    requires { 1 ≤ piece }
{
    let words = words_of(alloc, text)?;
    let mut ran = Ran {
        outcome: Outcome::Done,
        input: MemorySource::new(octets.to_vec(alloc)?, piece, [failing.input].to_vec(alloc)?),
        output: MemorySink::new(alloc, piece, [failing.output].to_vec(alloc)?),
        notes: MemorySink::new(alloc, piece, [failing.notes].to_vec(alloc)?),
        shelf,
    };
    ran.outcome = run(
        alloc,
        words.as_slice(),
        &mut ran.input,
        &mut ran.output,
        &mut ran.notes,
        &mut ran.shelf,
    );
    Ok(ran)
}

/// A run of arguments over octets that come and go in pieces of this size, with the table of the samples on the shelf
/// under the name `t`.
///
/// # Errors
///
/// There is no memory for the arguments, the table, or a copy of the octets.
pub fn run_with_table(
    alloc: Global,
    text: &str,
    octets: &[u8],
    piece: usize,
    failing: Failing,
) -> Result<Ran, AllocError>
    requires { 1 ≤ piece }
{
    let mut shelf = MemoryShelf::new(alloc, Vec::new(alloc));
    shelf.put("t", TABLE)?;
    run_with(alloc, text, octets, piece, failing, shelf)
}

/// Whether such a run ends so, with this output and these notes, in pieces of each size.
///
/// # Errors
///
/// There is no memory for the runs.
pub fn gives(
    alloc: Global,
    text: &str,
    octets: &[u8],
    outcome: Outcome,
    output: &[u8],
    notes: &str,
) -> Result<bool, AllocError> {
    for piece in [1, 7, 600] {
        let ran = run_with_table(alloc, text, octets, piece, CALM)?;
        if !ran.gave(outcome, output, notes) {
            return Ok(false);
        }
    }
    Ok(true)
}

/// Whether such a run over one message gives these octets, in pieces of each size, and notes how many.
///
/// # Errors
///
/// There is no memory for the runs.
pub fn gives_with_table(
    alloc: Global,
    text: &str,
    octets: &[u8],
    output: &[u8],
) -> Result<bool, AllocError> {
    let written = output.len();
    let note = format!(in alloc; "messages 1 fields 1 written {written}\n")?;
    gives(alloc, text, octets, Outcome::Done, output, note.as_str())
}

/// The arguments of a text, with spaces between them.
fn words_of(alloc: Global, text: &str) -> Result<Vec<String>, AllocError> {
    let mut words = Vec::new(alloc);
    for word in text.split_whitespace() {
        words.push(String::from_str(alloc, word)?)?;
    }
    Ok(words)
}
