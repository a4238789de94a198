//! A run that reads its input: the messages are answered by a command, which may want tables.

ghost use Rattle.std.specs.Prelude.{◌≡◌, ◌||◌, true, false, None};
ghost use Rattle.grib_stream.specs.Soon.{RefusesSoon};
ghost use Rattle.grib_items.specs.Laws.{nothing};
ghost use Rattle.grib_command.specs.Command.{task, under};
ghost use Rattle.grib_command.specs.Jobs.{HasPlaces};
ghost use Rattle.grib_command.specs.declared.job.Job.TheVariants.{Dump};
ghost use Rattle.grib_dispatch.specs.Hearing.{is_second};
ghost use Rattle.grib_io.specs.Shelves.{Stays};
ghost use Rattle.grib_run_spec.specs.Seen.{seen};
ghost use Rattle.grib_run_spec.specs.Serving.{Serves, IfUnread};
ghost use Rattle.grib_run_spec.specs.Tasks.{Reads, ReadsTables as AsksTables, by_names, by_parameters, by_profile, demoting, filtering_named, has_shelf, lines_work, lining, migrating, work_under};
ghost use Rattle.grib_table.specs.Together as specs;
ghost use Rattle.grib_table.specs.Together.{CountsTables};
ghost use Rattle.grib_engine.specs.Untabled.{outcome_untabled};

use crate::closing::close_with_note;
use crate::ending::close_at_end;
use grib_base::{List, Profile};
use grib_command::{Answerer, ByOutput, Conditions, Name};
use grib_dispatch::Answering;
use grib_edit::{Changing, Demoting, FilteringNamed, Migrating};
use grib_io::{Shelf, Sink, Source};
use grib_items::{Policy, answer_items};
use grib_migrate::Local;
use grib_params::TableMatch;
use grib_placed::{PlacedDumping, PlacedValuing};
use grib_report::{Dumping, Lining, Printing, PrintingValues, Valuing};
use grib_stream::{LIMIT, Outcome};
use grib_table::{Tables, TablesStop, read_tables};
use grib_text::{Column, Columns, LineForm};
use std::alloc::Global;

/// Answers the messages of the input, those of edition 2 by the profile, and notes how the run ended.
pub(crate) fn serve_messages<C: Answerer, S: Source, T: Sink, N: Sink, H: Shelf>(
    answerer: &C,
    alloc: Global,
    profile: Profile,
    policy: Policy,
    input: &mut S,
    output: &mut T,
    notes: &mut N,
    shelf: &mut H,
) -> Outcome
    ensures serves { let see = seen S.left S.faults T.contents T.faults T.settled N.contents N.faults N.settled H.contents H.faults in
        Serves (T.takes_memory || N.takes_memory) (Reads (under profile (C.definition answerer.now))) policy result
        (see input.old output.old notes.old shelf.old) (see input.new output.new notes.new shelf.new) }
    ensures soon { policy ≡ nothing → (C.definition answerer.now).hears ≡ true
        → RefusesSoon is_second (task (under profile (C.definition answerer.now))) result (S.left input.old) (S.left input.new) }
    ensures unused { (C.definition answerer.now).uses_shelf ≡ false → shelf.new ≡ shelf.old }
{
    let answering = Answering { answerer, profile };
    match answer_items(
        &answering, alloc, policy, LIMIT, input, output, notes, shelf,
    ) {
        Ok(totals) => close_at_end(answerer.ending(), alloc, &totals, output, notes),
        Err(outcome) => close_with_note(alloc, outcome, b"", output, notes),
    }
}

/// Prints the points of each field of the input, their values with so many decimals or their scaled integers, and where
/// they lie if it is asked for.
pub(crate) fn serve_dumped<S: Source, T: Sink, N: Sink, H: Shelf>(
    alloc: Global,
    decimals: Option<u32>,
    placed: bool,
    profile: Profile,
    policy: Policy,
    input: &mut S,
    output: &mut T,
    notes: &mut N,
    shelf: &mut H,
) -> Outcome
    requires { HasPlaces (Dump decimals placed) }
    ensures serves { let see = seen S.left S.faults T.contents T.faults T.settled N.contents N.faults N.settled H.contents H.faults in
        Serves (T.takes_memory || N.takes_memory) (work_under profile (Dump decimals placed)) policy result
        (see input.old output.old notes.old shelf.old) (see input.new output.new notes.new shelf.new) }
    ensures unused { shelf.new ≡ shelf.old }
{
    match (decimals, placed) {
        (None, false) => {
            let dumping = ByOutput(PrintingValues(Dumping));
            serve_messages(
                &dumping, alloc, profile, policy, input, output, notes, shelf,
            )
        }
        (None, true) => {
            let dumping = ByOutput(PlacedDumping);
            serve_messages(
                &dumping, alloc, profile, policy, input, output, notes, shelf,
            )
        }
        (Some(places), false) => {
            let valuing = ByOutput(Valuing { places });
            serve_messages(
                &valuing, alloc, profile, policy, input, output, notes, shelf,
            )
        }
        (Some(places), true) => {
            let valuing = ByOutput(PlacedValuing { places });
            serve_messages(
                &valuing, alloc, profile, policy, input, output, notes, shelf,
            )
        }
    }
}

/// Reads the tables under these names, and writes the messages of the input by them in edition 2.
pub(crate) fn serve_migrated<S: Source, T: Sink, N: Sink, H: Shelf>(
    alloc: Global,
    params: &Name,
    surfaces: &Option<Name>,
    local: Local,
    profile: Profile,
    policy: Policy,
    input: &mut S,
    output: &mut T,
    notes: &mut N,
    shelf: &mut H,
) -> Outcome
    ensures serves { let see = seen S.left S.faults T.contents T.faults T.settled N.contents N.faults N.settled H.contents H.faults in
        Serves (T.takes_memory || N.takes_memory) (AsksTables (by_parameters params.now surfaces.now) (λ tables. under profile (migrating local tables))) policy result
        (see input.old output.old notes.old shelf.old) (see input.new output.new notes.new shelf.new) }
    ensures unread { IfUnread (AsksTables (by_parameters params.now surfaces.now) (λ tables. under profile (migrating local tables))) (H.contents shelf.old)
        (input.new ≡ input.old) }
{
    match tables_named(alloc, params, surfaces, shelf) {
        Ok(tables) => {
            let migrating = ByOutput(Migrating {
                table: &tables.parameters,
                surfaces: &tables.surfaces,
                local,
            });
            serve_messages(
                &migrating, alloc, profile, policy, input, output, notes, shelf,
            )
        }
        Err(stop) => close_with_note(alloc, untabled(stop), b"", output, notes),
    }
}

/// Reads the parameter table under this name, and writes the messages of the input by it in edition 1.
pub(crate) fn serve_demoted<S: Source, T: Sink, N: Sink, H: Shelf>(
    alloc: Global,
    params: &Name,
    matching: TableMatch,
    keep_local: bool,
    any_earth: bool,
    profile: Profile,
    policy: Policy,
    input: &mut S,
    output: &mut T,
    notes: &mut N,
    shelf: &mut H,
) -> Outcome
    ensures serves { let see = seen S.left S.faults T.contents T.faults T.settled N.contents N.faults N.settled H.contents H.faults in
        Serves (T.takes_memory || N.takes_memory) (AsksTables (by_parameters params.now None) (λ tables. under profile (demoting matching keep_local any_earth tables))) policy result
        (see input.old output.old notes.old shelf.old) (see input.new output.new notes.new shelf.new) }
    ensures unread { IfUnread (AsksTables (by_parameters params.now None) (λ tables. under profile (demoting matching keep_local any_earth tables))) (H.contents shelf.old)
        (input.new ≡ input.old) }
{
    match tables_named(alloc, params, &None, shelf) {
        Ok(tables) => {
            let demoting = ByOutput(Demoting {
                table: &tables.parameters,
                matching,
                keep_local,
                any_earth,
            });
            serve_messages(
                &demoting, alloc, profile, policy, input, output, notes, shelf,
            )
        }
        Err(stop) => close_with_note(alloc, untabled(stop), b"", output, notes),
    }
}

/// Prints a line for each field of the input, with the names of the table under this name, where one is asked for.
pub(crate) fn serve_lines<S: Source, T: Sink, N: Sink, H: Shelf>(
    alloc: Global,
    form: LineForm,
    columns: &Columns,
    names: &Option<Name>,
    profile: Profile,
    policy: Policy,
    input: &mut S,
    output: &mut T,
    notes: &mut N,
    shelf: &mut H,
) -> Outcome
    ensures serves { let see = seen S.left S.faults T.contents T.faults T.settled N.contents N.faults N.settled H.contents H.faults in
        Serves (T.takes_memory || N.takes_memory) (by_profile profile (lines_work form columns.now names.now)) policy result
        (see input.old output.old notes.old shelf.old) (see input.new output.new notes.new shelf.new) }
    ensures unread { IfUnread (by_profile profile (lines_work form columns.now names.now)) (H.contents shelf.old) (input.new ≡ input.old) }
    ensures unused { has_shelf (by_profile profile (lines_work form columns.now names.now)) ≡ false → shelf.new ≡ shelf.old }
{
    let shown = columns.as_slice();
    match names {
        Some(name) => serve_lines_named(
            alloc, form, shown, name, profile, policy, input, output, notes, shelf,
        ),
        None => {
            let lining = ByOutput(Printing(Lining {
                form,
                columns: shown,
                names: None,
            }));
            serve_messages(&lining, alloc, profile, policy, input, output, notes, shelf)
        }
    }
}

/// Reads the table of names under this name, and prints a line for each field of the input by it.
fn serve_lines_named<S: Source, T: Sink, N: Sink, H: Shelf>(
    alloc: Global,
    form: LineForm,
    columns: &[Column],
    names: &Name,
    profile: Profile,
    policy: Policy,
    input: &mut S,
    output: &mut T,
    notes: &mut N,
    shelf: &mut H,
) -> Outcome
    ensures serves { let see = seen S.left S.faults T.contents T.faults T.settled N.contents N.faults N.settled H.contents H.faults in
        Serves (T.takes_memory || N.takes_memory) (AsksTables (by_names names.now) (λ tables. under profile (lining form columns.now tables))) policy result
        (see input.old output.old notes.old shelf.old) (see input.new output.new notes.new shelf.new) }
    ensures unread { IfUnread (AsksTables (by_names names.now) (λ tables. under profile (lining form columns.now tables))) (H.contents shelf.old)
        (input.new ≡ input.old) }
{
    match names_named(alloc, names, shelf) {
        Ok(tables) => {
            serve_lines_by(
                alloc, form, columns, &tables, profile, policy, input, output, notes, shelf,
            )
        }
        Err(stop) => close_with_note(alloc, untabled(stop), b"", output, notes),
    }
}

/// Prints a line for each field of the input by the table of names.
fn serve_lines_by<'a, S: Source, T: Sink, N: Sink, H: Shelf>(
    alloc: Global,
    form: LineForm,
    columns: &'a [Column],
    tables: &'a Tables,
    profile: Profile,
    policy: Policy,
    input: &mut S,
    output: &mut T,
    notes: &mut N,
    shelf: &mut H,
) -> Outcome
    ensures serves { let see = seen S.left S.faults T.contents T.faults T.settled N.contents N.faults N.settled H.contents H.faults in
        Serves (T.takes_memory || N.takes_memory) (Reads (under profile (lining form columns.now tables.now))) policy result
        (see input.old output.old notes.old shelf.old) (see input.new output.new notes.new shelf.new) }
    ensures unused { shelf.new ≡ shelf.old }
{
    let names = Some(&tables.names);
    let lining = ByOutput(Printing(Lining {
        form,
        columns,
        names,
    }));
    serve_messages(&lining, alloc, profile, policy, input, output, notes, shelf)
}

/// Reads the table of names under this name, and writes the messages and fields of the input that fulfil the conditions
/// and have one of the names that are wanted.
pub(crate) fn serve_filtered_named<S: Source, T: Sink, N: Sink, H: Shelf>(
    alloc: Global,
    conditions: &Conditions,
    wanted: &List<Name>,
    names: &Name,
    profile: Profile,
    policy: Policy,
    input: &mut S,
    output: &mut T,
    notes: &mut N,
    shelf: &mut H,
) -> Outcome
    ensures serves { let see = seen S.left S.faults T.contents T.faults T.settled N.contents N.faults N.settled H.contents H.faults in
        Serves (T.takes_memory || N.takes_memory) (AsksTables (by_names names.now) (λ tables. under profile (filtering_named conditions.now wanted.now tables))) policy result
        (see input.old output.old notes.old shelf.old) (see input.new output.new notes.new shelf.new) }
    ensures unread { IfUnread (AsksTables (by_names names.now) (λ tables. under profile (filtering_named conditions.now wanted.now tables))) (H.contents shelf.old)
        (input.new ≡ input.old) }
{
    let asked = conditions.as_slice();
    let given = wanted.as_slice();
    match names_named(alloc, names, shelf) {
        Ok(tables) => {
            let filtering = ByOutput(Changing(FilteringNamed {
                conditions: asked,
                wanted: given,
                names: &tables.names,
            }));
            serve_messages(
                &filtering, alloc, profile, policy, input, output, notes, shelf,
            )
        }
        Err(stop) => close_with_note(alloc, untabled(stop), b"", output, notes),
    }
}

/// Reads the tables under these names.
fn tables_named<H: Shelf>(
    alloc: Global,
    params: &Name,
    surfaces: &Option<Name>,
    shelf: &mut H,
) -> Result<Tables, TablesStop>
    ensures read { specs.ReadsTables result (H.contents shelf.old) (by_parameters params.now surfaces.now) }
    ensures kept { Stays (H.contents shelf.old) (H.contents shelf.new) }
    ensures counted { CountsTables result (H.faults shelf.old) (H.faults shelf.new) }
{
    let params = Some(params.as_str());
    match surfaces {
        Some(surfaces) => read_tables(alloc, params, Some(surfaces.as_str()), None, shelf),
        None => read_tables(alloc, params, None, None, shelf),
    }
}

/// Reads the table of names under this name.
fn names_named<H: Shelf>(alloc: Global, names: &Name, shelf: &mut H) -> Result<Tables, TablesStop>
    ensures read { specs.ReadsTables result (H.contents shelf.old) (by_names names.now) }
    ensures kept { Stays (H.contents shelf.old) (H.contents shelf.new) }
    ensures counted { CountsTables result (H.faults shelf.old) (H.faults shelf.new) }
{
    read_tables(alloc, None, None, Some(names.as_str()), shelf)
}

/// How a run ends that has no tables to answer by.
fn untabled(stop: TablesStop) -> Outcome
    ensures { result ≡ outcome_untabled stop }
{
    match stop {
        TablesStop::Refused(refusal) => Outcome::TableRefused(refusal),
        TablesStop::SurfacesRefused(refusal) => Outcome::SurfacesRefused(refusal),
        TablesStop::ShelfFault => Outcome::ShelfFault,
        TablesStop::Memory => Outcome::Memory,
    }
}
