//! Laws over the definitions.

ghost use Rattle.std.specs.Prelude.{◌≡◌, ◌≢◌, ℕ, Bool, true, false, List, [], ◌∷◌, ◌++◌, length, take, None, All};
ghost use Rattle.grib_base.specs.Rules.{refusal};
ghost use Rattle.grib_base.specs.declared.fault.Reason.TheVariants.{Edition};
ghost use Rattle.grib_stream.specs.Acts.{written};
ghost use Rattle.grib_stream.specs.Answer as plain;
ghost use Rattle.grib_stream.specs.Stream.{stream};
ghost use Rattle.grib_stream.specs.Task.{Task, IsLawful};
ghost use Rattle.grib_stream.specs.Texts.{Texts};
ghost use Rattle.grib_items.specs.declared.policy.Policy.{Policy};
ghost use Rattle.grib_items.specs.Items.{Item, Refused, Over, Open, passed_after, items_of, items};
ghost use Rattle.grib_items.specs.Answer.{answer_of, answer_within, no_counts};
ghost use Rattle.grib_items.specs.Laws.{nothing, outcome_of, is_refusal, is_kept, RefusesNone, IsPlain, CountsLines, StandsIn, EndStandsIn, AreInOrder, accepted_items, copying, copied, refuses_all, stated_12, nested};

/// Where nothing is skipped, the answer is that of a stream: the same is done, it ends in the same way, and no line is
/// noted.
pub fn nothing_is_passed()
    ensures { (task : Task) (texts : Texts) (limit : ℕ) (input : List ℕ) → IsLawful task
        → IsPlain task (answer_within limit task texts nothing input) (plain.answer_within limit task input) }
{}

/// Where refusals are skipped, no run ends with one, and where something is written instead of unchanged messages, none
/// ends with one of these.
pub fn no_end_at_what_is_passed()
    ensures refused { (task : Task) (texts : Texts) (policy : Policy) (limit : ℕ) (input : List ℕ)
        → RefusesNone task → policy.refused ≢ None
        → is_refusal (outcome_of (answer_within limit task texts policy input).result) ≡ false }
    ensures kept { (task : Task) (texts : Texts) (policy : Policy) (limit : ℕ) (input : List ℕ)
        → policy.kept ≢ None
        → is_kept (outcome_of (answer_within limit task texts policy input).result) ≡ false }
{}

/// An answer has as many lines as refusals and unchanged messages are counted.
pub fn one_line_each()
    ensures { (task : Task) (texts : Texts) (policy : Policy) (limit : ℕ) (input : List ℕ)
        → CountsLines (length (answer_within limit task texts policy input).deeds.lines)
        (answer_within limit task texts policy input).result }
{}

/// Where what is refused and what is not changed is copied, what is written is, item for item, what the task gives for a
/// message, an unchanged message as it is, and refused octets as they are where they have their stated end; nothing for a
/// `GRIB` alone.
pub fn what_is_copied()
    ensures { (task : Task) (texts : Texts) (more : Bool) (input : List ℕ)
        → written (answer_of task texts copying more input).deeds.acts
        ≡ copied task texts no_counts (items task.judge true more input).items }
{}

/// The first items of an input are the messages of its stream, which end before the first refusal.
pub fn messages_before_a_refusal()
    ensures { (task : Task) (passes more : Bool) (input : List ℕ) → (rest : List Item)
        × ((items task.judge passes more input).items ≡ accepted_items (stream task.judge input).messages ++ rest) }
{}

/// Each item of an input is what stands at its place, and where octets are refused and not skipped, they stand in it.
pub fn items_stand()
    ensures items { (task : Task) (passes more : Bool) (input : List ℕ) → IsLawful task
        → All (StandsIn task.judge more input) (items task.judge passes more input).items }
    ensures end { (task : Task) (passes more : Bool) (input : List ℕ) → IsLawful task
        → EndStandsIn task.judge input (items task.judge passes more input).end }
{}

/// The items of an input lie one after the other.
pub fn items_in_order()
    ensures { (task : Task) (passes more : Bool) (input : List ℕ) → IsLawful task
        → AreInOrder 0 (items task.judge passes more input).items (length input) }
{}

/// A refusal is skipped up to its stated end, where the End Section stands there.
pub fn passed_to_the_stated_end()
    ensures whole { items refuses_all true false (0 ∷ stated_12)
        ≡ items_of (Refused (passed_after 1 (refusal 8 Edition 3) stated_12) ∷ []) (Over 13) }
    ensures unknown { items refuses_all true true (take 11 stated_12) ≡ items_of [] Open }
    ensures cut { items refuses_all true false (take 11 stated_12)
        ≡ items_of (Refused (passed_after 0 (refusal 8 Edition 3) (take 4 stated_12)) ∷ []) (Over 11) }
{}

/// Without that mark its `GRIB` alone is skipped, and the search finds one within.
pub fn passed_behind_its_mark()
    ensures { items refuses_all true false nested
        ≡ items_of (Refused (passed_after 0 (refusal 8 Edition 3) (take 4 nested))
        ∷ Refused (passed_after 8 (refusal 8 Edition 3) (take 4 nested)) ∷ [])
        (Over 12) }
{}
