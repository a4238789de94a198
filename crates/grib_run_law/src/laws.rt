//! Laws over the definitions, under each profile.

ghost use Rattle.std.specs.Prelude.{◌≡◌, ◌<◌, ◌≤◌, ◌++◌, ◌^◌, ℕ, Bool, true, IfSome, List, length};
ghost use Rattle.std.specs.declared.option.Option.{Option};
ghost use Rattle.grib_base.specs.declared.profile.Profile.{Profile};
ghost use Rattle.grib_keys.specs.declared.condition.Change.{Change};
ghost use Rattle.grib_keys.specs.declared.wanted.Wanted.{Wanted};
ghost use Rattle.grib1_select.specs.declared.condition.Change1.{Change1};
ghost use Rattle.grib1_select.specs.declared.condition.Wanted1.{Wanted1};
ghost use Rattle.grib_dates.specs.declared.rule.Dates.{Dates};
ghost use Rattle.grib_names.specs.Table.{NameEntries};
ghost use Rattle.grib_migrate.specs.declared.labels.Local.{Local};
ghost use Rattle.grib_params.specs.Surfaces.{SurfaceEntries};
ghost use Rattle.grib_params.specs.Table.{Entries};
ghost use Rattle.grib_packing.specs.declared.target.RepackTarget.{RepackTarget};
ghost use Rattle.grib_table.specs.Together.{Texts};
ghost use Rattle.grib_stream.specs.declared.outcome.Outcome.{Outcome};
ghost use Rattle.grib_stream.specs.declared.outcome.Outcome.TheVariants.{Done};
ghost use Rattle.grib_stream.specs.Acts.{World, written, Did, DidFront};
ghost use Rattle.grib_stream.specs.Answer.{answer_within};
ghost use Rattle.grib_stream.specs.Cutting.{EndsAtMessage, later_by, message_count};
ghost use Rattle.grib_items.specs.declared.policy.Policy.{Policy};
ghost use Rattle.grib_items.specs.Laws.{nothing};
ghost use Rattle.grib_command.specs.declared.job.Job.{Job};
ghost use Rattle.grib_command.specs.Command.{Command, IsLawfulCommand, task, under};
ghost use Rattle.grib_command.specs.Jobs.{IsJob, CanChange, CanChange1, is_target};
ghost use Rattle.grib_command.specs.Judging.{judge_under};
ghost use Rattle.grib_edit.specs.Filtering.{filter_command};
ghost use Rattle.grib_edit.specs.Filtering1.{filter1_command};
ghost use Rattle.grib_edit.specs.FilteringNamed.{filter_named_command};
ghost use Rattle.grib_edit.specs.Migrating.{migrate_command};
ghost use Rattle.grib_edit.specs.Repacking.{repack_command};
ghost use Rattle.grib_edit.specs.Setting.{set_command};
ghost use Rattle.grib_edit.specs.Setting1.{set1_command};
ghost use Rattle.grib_edit.specs.Splitting.{split_command};
ghost use Rattle.grib_run_spec.specs.Seen.{Seen};
ghost use Rattle.grib_run_spec.specs.Serving.{AnswersWork};
ghost use Rattle.grib_run_spec.specs.Stated.{stated_to};
ghost use Rattle.grib_run_spec.specs.Tasks.{answer_under, work_under};
ghost use Rattle.grib_run_law.specs.Complete.{Piece, IsMadeOf, HaveResults};
ghost use Rattle.grib_run_law.specs.Each.{writes_each};
ghost use Rattle.grib_run_law.specs.Judged.{Judges};
ghost use Rattle.grib_run_law.specs.Leaving.{Leaves};
ghost use Rattle.grib_run_law.specs.Plain.{IsPlainly};
ghost use Rattle.grib_run_law.specs.Same.{SameValues, SameMigrated, SetsKeys, SetsKeys1, IsFiltered, IsFilteredNamed, IsFiltered1, IfOctets};
ghost use Rattle.grib_run_law.specs.Shelved.{SplitsFields, parts_within, OfNames, StandFirst, StandAll};
ghost use Rattle.grib_run_law.specs.Written.{Writes, stated_of};
ghost use Rattle.grib_packing.specs.Targets.{target_of};
ghost use Rattle.grib_repack.specs.Repacked.{HasPacking};

use grib_items::laws::{items_stand, nothing_is_passed};
use grib_repack::laws::what_is_repacked_keeps_each_value as what_is_packed_anew_keeps_each_value;
use grib_select::laws::{what_is_cut_out_keeps_its_column, what_is_set_keeps_each_column};
use grib_stream::laws::each_outcome_has_its_note;
use grib1_select::laws::{what_is_set_keeps_the_column, what_is_set_stands};

/// What `repack` to a packing that the profile has writes is, for each item until the run ends, a message with the same values, or what stands for a message
/// that cannot be changed, or what the policy has for octets that are refused.
pub fn what_is_repacked_keeps_each_value()
    ensures { (profile : Profile) (target : RepackTarget) (policy : Policy) (more : Bool) (octets : List ℕ) → is_target target ≡ true
        → HasPacking profile (target_of target)
        → Writes (IfOctets (SameValues profile)) (under profile (repack_command target)) policy more octets }
{
    items_stand();
    what_is_packed_anew_keeps_each_value();
}

/// What `migrate` writes, by a parameter table, a table of surfaces and what is chosen of local use, is so a message of edition 2 whose points mean the same.
pub fn what_is_migrated_keeps_each_value()
    ensures { (profile : Profile) (local : Local) (table : Entries) (surfaces : SurfaceEntries) (policy : Policy) (more : Bool) (octets : List ℕ)
        → Writes (IfOctets (SameMigrated profile)) (under profile (migrate_command local table surfaces)) policy more octets }
{
    items_stand();
}

/// What `set` writes is so a message with the same columns. Where no key stands twice among the changes, its fields have the
/// keys with their new values. Where dates are to be valid, its reference time is a date and time.
pub fn what_is_set_keeps_each_field()
    ensures { (profile : Profile) (dates : Dates) (changes : List Change) (policy : Policy) (more : Bool) (octets : List ℕ) → CanChange changes
        → Writes (SetsKeys profile dates changes) (under profile (set_command dates changes)) policy more octets }
{
    items_stand();
    what_is_set_keeps_each_column();
}

/// What `set` of edition 1 writes is so a message of edition 1 with the same column, and has the keys with their new values
/// and each other key as it was.
pub fn what_is_set_in_edition_1_keeps_the_field()
    ensures { (profile : Profile) (dates : Dates) (changes : List Change1) (policy : Policy) (more : Bool) (octets : List ℕ) → CanChange1 changes
        → Writes (IfOctets (SetsKeys1 dates changes)) (under profile (set1_command dates changes)) policy more octets }
{
    items_stand();
    what_is_set_keeps_the_column();
    what_is_set_stands();
}

/// What `filter` writes are so the fields that fulfil the conditions, and have one of the names that are wanted, each with
/// its column.
pub fn what_is_filtered_keeps_each_column()
    ensures keys { (profile : Profile) (conditions : List Wanted) (policy : Policy) (more : Bool) (octets : List ℕ)
        → Writes (IsFiltered profile conditions) (under profile (filter_command conditions)) policy more octets }
    ensures names { (profile : Profile) (conditions : List Wanted) (wanted : List (List ℕ)) (names : NameEntries) (policy : Policy) (more : Bool) (octets : List ℕ)
        → Writes (IsFilteredNamed profile conditions wanted names) (under profile (filter_named_command conditions wanted names)) policy more octets }
{
    items_stand();
    what_is_cut_out_keeps_its_column();
}

/// What `filter` of edition 1 writes are so the messages of edition 1 that fulfil the conditions, as they are.
pub fn what_is_filtered_in_edition_1_is_whole()
    ensures { (profile : Profile) (conditions : List Wanted1) (policy : Policy) (more : Bool) (octets : List ℕ)
        → Writes (IsFiltered1 conditions) (under profile (filter1_command conditions)) policy more octets }
{
    items_stand();
}

/// What `split` puts on the shelf are the fields of the messages that are answered, in their order: each is an accepted
/// message of one field, with its column. Messages of edition 1 stand among them as they are, where they are asked for.
pub fn what_is_split_keeps_each_column()
    ensures { (profile : Profile) (edition_1 : Bool) (out : List ℕ) (policy : Policy) (more : Bool) (octets : List ℕ)
        → SplitsFields profile edition_1 out policy more octets }
{
    items_stand();
    what_is_cut_out_keeps_its_column();
}

/// Where some front of what `split` does was done, some number of first fields stand whole under their names, the name of
/// the next is as it was or has some first octets of that field, and each other name has what it had. Where all was
/// done, all fields stand so.
pub fn what_is_split_stands_whole()
    ensures first { (profile : Profile) (edition_1 : Bool) (out : List ℕ) (policy : Policy) (more : Bool) (octets : List ℕ) (before now : World)
        → length octets < 2 ^ 64
        → DidFront before now (stated_of (under profile (split_command edition_1 out)) policy more octets).acts
        → OfNames before.names now.names (λ held held_now.
        (count : ℕ) × StandFirst (parts_within profile edition_1 out policy more octets) held held_now count) }
    ensures whole { (profile : Profile) (edition_1 : Bool) (out : List ℕ) (policy : Policy) (more : Bool) (octets : List ℕ) (before now : World)
        → length octets < 2 ^ 64
        → Did before now (stated_of (under profile (split_command edition_1 out)) policy more octets).acts
        → OfNames before.names now.names (StandAll (parts_within profile edition_1 out policy more octets)) }
{}

/// What a run leaves. Where neither a device nor memory ended it, `repack`, `migrate`, `set` and `filter` appended for each
/// item, until the run ended, what the laws above say, by the tables that stand on the shelf. Of `split`, however it ended,
/// the fields stand on the shelf.
pub fn what_a_run_leaves()
    ensures { (profile : Profile) (job : Job) (policy : Policy) (outcome : Outcome) (before now : Seen) → IsJob job
        → AnswersWork (work_under profile job) policy outcome before now → Leaves profile job policy outcome before now }
{
    items_stand();
    what_is_repacked_keeps_each_value();
    what_is_migrated_keeps_each_value();
    what_is_set_keeps_each_field();
    what_is_set_in_edition_1_keeps_the_field();
    what_is_filtered_keeps_each_column();
    what_is_filtered_in_edition_1_is_whole();
}

/// Each message of the input of a run, as far as it is answered, is in the grammar of its edition, and octets that are
/// refused, passed or not, are refused by the first rule that fails.
pub fn what_a_run_answers_is_in_the_grammar()
    ensures { (profile : Profile) (job : Job) (policy : Policy) (outcome : Outcome) (before now : Seen)
        → AnswersWork (work_under profile job) policy outcome before now → IfSome before.left (Judges profile policy outcome) }
{
    items_stand();
}

/// Where nothing is passed, the stated answer of a command is its answer to a stream of messages.
pub fn what_passes_nothing_answers_a_stream()
    ensures { (command : Command) (input : List ℕ) → IsLawfulCommand command
        → IsPlainly command.ending (stated_to command nothing input) (answer_within (2 ^ 40) (task command) input) }
{
    nothing_is_passed();
    each_outcome_has_its_note();
}

/// Where an input is cut at the end of one of its messages, and all messages before it are answered, then `filter`,
/// `set`, `repack`, `rescan`, `crop`, `migrate` and `demote` write of the whole what they write of the parts, one
/// after the other, whatever stands on the shelf under the names of the tables. The whole ends as the second part
/// does, up to the numbers of messages. Nothing is passed.
pub fn parts_are_written_one_after_the_other()
    ensures octets { (profile : Profile) (job : Job) (texts : Texts) (front rest : List ℕ) → IsJob job → writes_each job ≡ true
        → length (front ++ rest) ≤ 2 ^ 40 → EndsAtMessage (judge_under profile) front
        → (answer_under profile job texts front).outcome ≡ Done
        → written (answer_under profile job texts (front ++ rest)).acts
        ≡ written (answer_under profile job texts front).acts ++ written (answer_under profile job texts rest).acts }
    ensures outcome { (profile : Profile) (job : Job) (texts : Texts) (front rest : List ℕ) → IsJob job → writes_each job ≡ true
        → length (front ++ rest) ≤ 2 ^ 40 → EndsAtMessage (judge_under profile) front
        → (answer_under profile job texts front).outcome ≡ Done
        → (answer_under profile job texts (front ++ rest)).outcome
        ≡ later_by (message_count (judge_under profile) front) (answer_under profile job texts rest).outcome }
{}

/// Where an input of at most 2 ^ 40 octets consists of messages of the grammar, with octets between them in which
/// none begins, where each of them can be changed as asked, and where the tables, if the job reads
/// any, are good, the run is done.
pub fn what_can_be_answered_is_done()
    ensures { (profile : Profile) (job : Job) (texts : Texts) (pieces : List Piece) (input : List ℕ) → length input ≤ 2 ^ 40
        → IsMadeOf profile pieces input → HaveResults (work_under profile job) texts pieces → (answer_under profile job texts input).outcome ≡ Done }
{}
