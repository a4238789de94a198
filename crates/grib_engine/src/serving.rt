//! A whole run: the messages of the input are answered, or one is made, and the run is brought to its end.

ghost use Rattle.std.specs.Prelude.{◌≡◌, ◌⊎◌, ◌||◌, false};
ghost use Rattle.grib_base.specs.declared.profile.Profile.TheVariants.{Stated};
ghost use Rattle.grib_stream.specs.Outcomes.{is_broken};
ghost use Rattle.grib_stream.specs.declared.outcome.Outcome.TheVariants.{Memory, WriteFault};
ghost use Rattle.grib_items.specs.Laws.{nothing};
ghost use Rattle.grib_items.specs.declared.policy.Policy as policies;
ghost use Rattle.grib_command.specs.Jobs.{IsJob};
ghost use Rattle.grib_dispatch.specs.Hearing.{RefusesInTime};
ghost use Rattle.grib_run_spec.specs.Seen.{seen};
ghost use Rattle.grib_run_spec.specs.Serving.{Serves, IfUnread};
ghost use Rattle.grib_run_spec.specs.Tasks.{Work, Makes, IfHears, ends_at_once, has_shelf, uses_shelf, work_of, work_under};

use crate::closing::close_with_note;
use crate::comparing::serve_compared;
use crate::making::{serve_made, write_noted};
use crate::reading::{
    serve_demoted, serve_dumped, serve_filtered_named, serve_lines, serve_messages, serve_migrated,
};
use grib_base::Profile;
use grib_command::{ByOutput, Job};
use grib_edit::{
    Changing, Filtering, Filtering1, OfValues, Repacking, Rescanning, Setting, Setting1, Shrinking,
    Splitting,
};
use grib_io::{Shelf, Sink, Source};
use grib_items::Policy;
use grib_reorder::GridEdit;
use grib_report::{Checking, Keying, Listing, Printing, PrintingValues, Summing};
use grib_stream::Outcome;
use grib_values::{Arraying, Coordinating};
use std::alloc::Global;

/// Writes the answer to the job to `output`, and notes how the run ended. The answer is a function of the job, the
/// input and, for `migrate`, `demote` and what asks for names, the tables that stand on the shelf, and for `compare` the file; it does not depend on
/// how the input comes in pieces. The run ends at the first octets that are refused, and at the first message that
/// cannot be changed. `make` and the pages read no input. `split` puts fields on the shelf, tables are read there before
/// any input, and so is the file of `compare`; no other job uses the shelf. What is refused by `check` or `list` is refused in time.
pub fn serve<S: Source, T: Sink, N: Sink, H: Shelf>(
    alloc: Global,
    job: &Job,
    input: &mut S,
    output: &mut T,
    notes: &mut N,
    shelf: &mut H,
) -> Outcome
    requires { IsJob job.now }
    ensures serves { let see = seen S.left S.faults T.contents T.faults T.settled N.contents N.faults N.settled H.contents H.faults in
        Serves (T.takes_memory || N.takes_memory) (work_of job.now) nothing result
        (see input.old output.old notes.old shelf.old) (see input.new output.new notes.new shelf.new) }
    ensures soon { IfHears job.now (RefusesInTime Stated result (S.left input.old) (S.left input.new)) }
    ensures unread { IfUnread (work_of job.now) (H.contents shelf.old) (input.new ≡ input.old) }
    ensures unused { uses_shelf job.now ≡ false → shelf.new ≡ shelf.old }
{
    let policy = Policy {
        refused: None,
        kept: None,
    };
    serve_under(
        alloc,
        job,
        Profile::Stated,
        policy,
        input,
        output,
        notes,
        shelf,
    )
}

/// Writes the answer to the job to `output`, as `serve` does, but goes past octets that are refused and past messages
/// that cannot be changed, as `policy` says, and notes a line of each. Messages of edition 2 are accepted by `profile`. Under a policy that goes
/// past anything no message is heard. `make` and the pages have nothing to go past.
pub fn serve_under<S: Source, T: Sink, N: Sink, H: Shelf>(
    alloc: Global,
    job: &Job,
    profile: Profile,
    policy: Policy,
    input: &mut S,
    output: &mut T,
    notes: &mut N,
    shelf: &mut H,
) -> Outcome
    requires { IsJob job.now }
    ensures serves { let see = seen S.left S.faults T.contents T.faults T.settled N.contents N.faults N.settled H.contents H.faults in
        Serves (T.takes_memory || N.takes_memory) (work_under profile job.now) policy result
        (see input.old output.old notes.old shelf.old) (see input.new output.new notes.new shelf.new) }
    ensures soon { policy ≡ nothing → IfHears job.now (RefusesInTime profile result (S.left input.old) (S.left input.new)) }
    ensures unread { IfUnread (work_under profile job.now) (H.contents shelf.old) (input.new ≡ input.old) }
    ensures unused { has_shelf (work_under profile job.now) ≡ false → shelf.new ≡ shelf.old }
{
    match job {
        Job::Check => {
            let checking = ByOutput(Checking);
            serve_messages(
                &checking, alloc, profile, policy, input, output, notes, shelf,
            )
        }
        Job::List => {
            let listing = ByOutput(Printing(Listing));
            serve_messages(
                &listing, alloc, profile, policy, input, output, notes, shelf,
            )
        }
        Job::Keys => {
            let keying = ByOutput(Printing(Keying));
            serve_messages(&keying, alloc, profile, policy, input, output, notes, shelf)
        }
        Job::Lines {
            form,
            columns,
            names,
        } => serve_lines(
            alloc, *form, columns, names, profile, policy, input, output, notes, shelf,
        ),
        Job::Stats => {
            let summing = ByOutput(PrintingValues(Summing));
            serve_messages(
                &summing, alloc, profile, policy, input, output, notes, shelf,
            )
        }
        Job::Dump { decimals, placed } => serve_dumped(
            alloc, *decimals, *placed, profile, policy, input, output, notes, shelf,
        ),
        Job::Values(format) => {
            let arraying = ByOutput(PrintingValues(Arraying { format: *format }));
            serve_messages(
                &arraying, alloc, profile, policy, input, output, notes, shelf,
            )
        }
        Job::Coordinates => {
            let coordinating = ByOutput(Coordinating);
            serve_messages(
                &coordinating,
                alloc,
                profile,
                policy,
                input,
                output,
                notes,
                shelf,
            )
        }
        Job::Compare {
            file,
            sections,
            quiet,
        } => serve_compared(
            alloc, file, *sections, *quiet, profile, policy, input, output, notes, shelf,
        ),
        Job::Filter(conditions) => {
            let conditions = conditions.as_slice();
            let filtering = ByOutput(Changing(Filtering { conditions }));
            serve_messages(
                &filtering, alloc, profile, policy, input, output, notes, shelf,
            )
        }
        Job::FilterNamed {
            conditions,
            names,
            wanted,
        } => serve_filtered_named(
            alloc, conditions, wanted, names, profile, policy, input, output, notes, shelf,
        ),
        Job::Filter1(conditions) => {
            let conditions = conditions.as_slice();
            let filtering = ByOutput(Filtering1 { conditions });
            serve_messages(
                &filtering, alloc, profile, policy, input, output, notes, shelf,
            )
        }
        Job::Split { name, edition_1 } => {
            let edition_1 = *edition_1;
            let splitting = Splitting { name, edition_1 };
            serve_messages(
                &splitting, alloc, profile, policy, input, output, notes, shelf,
            )
        }
        Job::Set { changes, dates } => {
            let (changes, dates) = (changes.as_slice(), *dates);
            let setting = ByOutput(Changing(Setting { changes, dates }));
            serve_messages(
                &setting, alloc, profile, policy, input, output, notes, shelf,
            )
        }
        Job::Set1 { changes, dates } => {
            let (changes, dates) = (changes.as_slice(), *dates);
            let setting = ByOutput(Setting1 { changes, dates });
            serve_messages(
                &setting, alloc, profile, policy, input, output, notes, shelf,
            )
        }
        Job::Repack(target) => {
            let repacking = ByOutput(Changing(OfValues(Repacking { target: *target })));
            serve_messages(
                &repacking, alloc, profile, policy, input, output, notes, shelf,
            )
        }
        Job::RepackLeast(tried) => {
            let shrinking = ByOutput(Changing(OfValues(Shrinking { profile: *tried })));
            serve_messages(
                &shrinking, alloc, profile, policy, input, output, notes, shelf,
            )
        }
        Job::Rescan => {
            let edit = GridEdit::Rescan;
            let rescanning = ByOutput(Changing(OfValues(Rescanning { edit })));
            serve_messages(
                &rescanning,
                alloc,
                profile,
                policy,
                input,
                output,
                notes,
                shelf,
            )
        }
        Job::Crop(area) => {
            let edit = GridEdit::Crop(*area);
            let cropping = ByOutput(Changing(OfValues(Rescanning { edit })));
            serve_messages(
                &cropping, alloc, profile, policy, input, output, notes, shelf,
            )
        }
        Job::Within(bounds) => {
            let edit = GridEdit::Within(*bounds);
            let cropping = ByOutput(Changing(OfValues(Rescanning { edit })));
            serve_messages(
                &cropping, alloc, profile, policy, input, output, notes, shelf,
            )
        }
        Job::Migrate {
            params,
            surfaces,
            local,
        } => serve_migrated(
            alloc, params, surfaces, *local, profile, policy, input, output, notes, shelf,
        ),
        Job::Demote {
            params,
            keep_local,
            any_earth,
            matching,
        } => {
            let (keep_local, any_earth, matching) = (*keep_local, *any_earth, *matching);
            serve_demoted(
                alloc, params, matching, keep_local, any_earth, profile, policy, input, output,
                notes, shelf,
            )
        }
        Job::Make {
            seed,
            ni,
            nj,
            target,
        } => serve_made(alloc, *seed, *ni, *nj, *target, output, notes),
        Job::Print(page) => write_noted(alloc, page.text().as_bytes(), b"", output, notes),
    }
}

/// Ends a run of which the answer is how it ends: nothing is read, and nothing is done.
pub fn end_at_once<S: Source, T: Sink, N: Sink, H: Shelf>(
    alloc: Global,
    outcome: Outcome,
    input: &S,
    output: &mut T,
    notes: &mut N,
    shelf: &H,
) -> Outcome
    requires { is_broken outcome ≡ false }
    ensures serves { (policy : policies.Policy)
        → let see = seen S.left S.faults T.contents T.faults T.settled N.contents N.faults N.settled H.contents H.faults in
        Serves (T.takes_memory || N.takes_memory) (Makes (ends_at_once outcome)) policy result
        (see input.now output.old notes.old shelf.now) (see input.now output.new notes.new shelf.now) }
{
    close_with_note(alloc, outcome, b"", output, notes)
}

/// Ends a run for which there is no memory, before anything of it is done.
pub fn end_without_memory<S: Source, T: Sink, N: Sink, H: Shelf>(
    alloc: Global,
    input: &S,
    output: &mut T,
    notes: &mut N,
    shelf: &H,
) -> Outcome
    ensures serves { (work : Work) (policy : policies.Policy)
        → let see = seen S.left S.faults T.contents T.faults T.settled N.contents N.faults N.settled H.contents H.faults in
        Serves (T.takes_memory || N.takes_memory) work policy result
        (see input.now output.old notes.old shelf.now) (see input.now output.new notes.new shelf.now) }
    ensures one_of { (result ≡ Memory) ⊎ (result ≡ WriteFault) }
{
    close_with_note(alloc, Outcome::Memory, b"", output, notes)
}
