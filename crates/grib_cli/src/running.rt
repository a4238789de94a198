//! The top call: from the arguments and the input to the output, the notes and the outcome.

ghost use Rattle.std.specs.Prelude.{◌≡◌, ◌||◌, false, [], map, string_bytes};
ghost use Rattle.grib_items.specs.declared.policy.Policy.{Policy};
ghost use Rattle.grib_run_spec.specs.Seen.{seen};
ghost use Rattle.grib_run_spec.specs.Serving.{IfUnread, Serves};
ghost use Rattle.grib_run_spec.specs.Tasks.{Makes, has_shelf, writing};
ghost use Rattle.grib_cli.specs.Answers.{Answers};
ghost use Rattle.grib_help.specs.Helping.{told_of_words};
ghost use Rattle.grib_cli.specs.Asked as asked;

use grib_engine::{Outcome, end_at_once, end_without_memory, serve_under, write_noted};
use grib_help::{is_on_words, told_of_words};
use grib_io::{Shelf, Sink, Source};
use grib_run_law::laws::{what_a_run_answers_is_in_the_grammar, what_a_run_leaves};
use grib_words::{JobFault, job_of, policy_of, profile_of};
use std::alloc::Global;

/// Does what the arguments ask for with the messages of `input`, or without it: writes the answer to `output`
/// and notes how the run ended. The answer is a function of the arguments, the input and the tables or the file that the
/// arguments name and that stand on the shelf; it does not depend on how the input comes in pieces. `split` and what names
/// a table or a file alone use the shelf, and only `split` changes it. `help` with arguments after it is answered by what there is to tell of
/// them, and asks for no job.
pub fn run<S: Source, T: Sink, N: Sink, H: Shelf>(
    alloc: Global,
    words: &[String],
    input: &mut S,
    output: &mut T,
    notes: &mut N,
    shelf: &mut H,
) -> Outcome
    // All that is promised of what is seen of the devices.
    ensures answers { let see = seen S.left S.faults T.contents T.faults T.settled N.contents N.faults N.settled
        H.contents H.faults in
        Answers (T.takes_memory || N.takes_memory) (map string_bytes words.now) result
        (see input.old output.old notes.old shelf.old) (see input.new output.new notes.new shelf.new) }
    // A device that has no part in what is asked is as it was: the input where none is read, or the table or the file is
    // refused before, and the shelf where it is not used.
    ensures unread { IfUnread (asked.work_of (map string_bytes words.now)) (H.contents shelf.old) (input.new ≡ input.old) }
    ensures unused { has_shelf (asked.work_of (map string_bytes words.now)) ≡ false → shelf.new ≡ shelf.old }
{
    what_a_run_leaves();
    what_a_run_answers_is_in_the_grammar();
    if is_on_words(words) {
        return tell_of(alloc, &words[1..], input, output, notes, shelf);
    }
    match job_of(alloc, words) {
        Ok(job) => serve_under(
            alloc,
            &job,
            profile_of(words),
            policy_of(words),
            input,
            output,
            notes,
            shelf,
        ),
        Err(JobFault::Usage(word)) => end_at_once(
            alloc,
            Outcome::Usage(word),
            input,
            output,
            notes,
            shelf,
        ),
        Err(JobFault::Memory) => end_without_memory(alloc, input, output, notes, shelf),
    }
}

/// Writes what `help` tells of these arguments, and ends the run without a note. Nothing is read.
fn tell_of<S: Source, T: Sink, N: Sink, H: Shelf>(
    alloc: Global,
    words: &[String],
    input: &S,
    output: &mut T,
    notes: &mut N,
    shelf: &H,
) -> Outcome
    ensures { (policy : Policy)
        → let see = seen S.left S.faults T.contents T.faults T.settled N.contents N.faults N.settled H.contents H.faults in
        Serves (T.takes_memory || N.takes_memory) (Makes (writing (told_of_words (map string_bytes words.now)) [])) policy result
        (see input.now output.old notes.old shelf.now) (see input.now output.new notes.new shelf.now) }
{
    match told_of_words(alloc, words) {
        Ok(text) => write_noted(alloc, text.as_bytes(), b"", output, notes),
        Err(_) => end_without_memory(alloc, input, output, notes, shelf),
    }
}
