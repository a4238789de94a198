//! Laws over the definitions.

ghost use Rattle.std.specs.Prelude.{◌≡◌, ◌≢◌, List, ℕ, ◌++◌, length};
ghost use Rattle.grib_stream.specs.Stream.{stream};
ghost use Rattle.grib_stream.specs.Task.{Task, IsLawful};
ghost use Rattle.grib_stream.specs.Within.{messages_within};
ghost use Rattle.grib_stream.specs.Answer.{answer_of, answer_within, NotesOutcome};
ghost use Rattle.grib_stream.specs.Cutting.{EndsAtMessage, StandsAlone, later_by, message_count};
ghost use Rattle.grib_stream.specs.declared.outcome.Outcome.TheVariants.{Done};

/// The messages of the first octets of an input are those of its messages that end within these octets.
pub fn messages_of_what_was_taken()
    ensures { (task : Task) (taken more : List ℕ) → IsLawful task
        → (stream task.judge taken).messages
        ≡ messages_within (length taken) (stream task.judge (taken ++ more)).messages }
{}

/// An answer that ends before the end of the input has the note of its outcome.
pub fn each_outcome_has_its_note()
    ensures { (task : Task) (limit : ℕ) (input : List ℕ) → NotesOutcome task (answer_within limit task input) }
{}

/// Where an input is cut at the end of one of its messages, what is done for the whole is what is done for the
/// first part and then for the second, where a message's result does not hang on its place. The whole ends as the
/// second part does, up to the numbers of messages. Where the run ends within the first part, its answer is that
/// to the whole.
pub fn parts_one_after_the_other()
    ensures acts { (task : Task) (front rest : List ℕ) → IsLawful task → StandsAlone task
        → EndsAtMessage task.judge front → (answer_of task front).outcome ≡ Done
        → (answer_of task (front ++ rest)).acts ≡ (answer_of task front).acts ++ (answer_of task rest).acts }
    ensures outcome { (task : Task) (front rest : List ℕ) → IsLawful task → StandsAlone task
        → EndsAtMessage task.judge front → (answer_of task front).outcome ≡ Done
        → (answer_of task (front ++ rest)).outcome
        ≡ later_by (message_count task.judge front) (answer_of task rest).outcome }
    ensures stopped { (task : Task) (front rest : List ℕ) → IsLawful task
        → EndsAtMessage task.judge front → (answer_of task front).outcome ≢ Done
        → answer_of task (front ++ rest) ≡ answer_of task front }
{}
