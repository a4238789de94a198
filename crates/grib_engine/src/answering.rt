//! A message that is answered as a job says.

ghost use Rattle.std.specs.Prelude.{◌≤◌, ◌^◌, false, None, option_copied};
ghost use Rattle.grib_base.specs.declared.profile.Profile.TheVariants.{Stated};
ghost use Rattle.grib_command.specs.Answering.{AnswersMessage};
ghost use Rattle.grib_command.specs.Command.{given};
ghost use Rattle.grib_command.specs.Jobs.{IsJob, HasPlaces};
ghost use Rattle.grib_command.specs.declared.job.Job.TheVariants.{Dump};
ghost use Rattle.grib_dispatch.specs.Reading.{held_octets};
ghost use Rattle.grib_run_spec.specs.Tasks.{IfReads, by_profile, lines_work, lining, work_of};

use grib_command::{Answered, ByOutput, Job, Name};
use grib_dispatch::{Held, answer_held};
use grib_edit::{
    Changing, Demoting, Filtering, Filtering1, FilteringNamed, Migrating, OfValues, Repacking,
    Rescanning, Setting, Setting1, Shrinking, Splitting,
};
use grib_io::{Shelf, Sink};
use grib_placed::{PlacedDumping, PlacedValuing};
use grib_reorder::GridEdit;
use grib_report::{
    Checking, Dumping, Keying, Lining, Listing, Printing, PrintingValues, Summing, Valuing,
};
use grib_stream::Place;
use grib_table::Tables;
use grib_text::{Column, LineForm};
use grib_values::{Arraying, Coordinating};
use std::alloc::Global;

/// Does what the job says of a message at this place; `make` says nothing of messages. After a fault or
/// without memory some front of its result was done. `split` leaves the output as it was, and every other
/// job the shelf. Nothing is said of a job that reads tables where none are given, nor of one that reads a file.
pub fn answer_message<T: Sink, H: Shelf>(
    alloc: Global,
    job: &Job,
    tables: Option<&Tables>,
    place: &Place,
    held: &Held<'_>,
    output: &mut T,
    shelf: &mut H,
) -> Answered
    requires job { IsJob job.now }
    requires fields { place.now.fields ≤ 2 ^ 41 }
    ensures { IfReads (work_of job.now) (option_copied tables.entry) (λ command.
        AnswersMessage T.contents T.faults T.settled H.contents H.faults
        result place.now.message (given command place.now (held_octets held.now)) command.uses_shelf
        output.old output.new shelf.old shelf.new) }
{
    match job {
        Job::Check => answer_held(&ByOutput(Checking), alloc, place, held, output, shelf),
        Job::List => answer_held(
            &ByOutput(Printing(Listing)),
            alloc,
            place,
            held,
            output,
            shelf,
        ),
        Job::Keys => answer_held(
            &ByOutput(Printing(Keying)),
            alloc,
            place,
            held,
            output,
            shelf,
        ),
        Job::Lines {
            form,
            columns,
            names,
        } => {
            let columns = columns.as_slice();
            answer_lines(
                alloc, *form, columns, names, tables, place, held, output, shelf,
            )
        }
        Job::Stats => answer_held(
            &ByOutput(PrintingValues(Summing)),
            alloc,
            place,
            held,
            output,
            shelf,
        ),
        Job::Dump { decimals, placed } => {
            answer_dumped(alloc, *decimals, *placed, place, held, output, shelf)
        }
        Job::Values(format) => {
            let format = *format;
            answer_held(
                &ByOutput(PrintingValues(Arraying { format })),
                alloc,
                place,
                held,
                output,
                shelf,
            )
        }
        Job::Coordinates => {
            answer_held(&ByOutput(Coordinating), alloc, place, held, output, shelf)
        }
        Job::Compare { .. } => Answered::Whole(0),
        Job::Filter(conditions) => {
            let conditions = conditions.as_slice();
            answer_held(
                &ByOutput(Changing(Filtering { conditions })),
                alloc,
                place,
                held,
                output,
                shelf,
            )
        }
        Job::FilterNamed {
            conditions,
            wanted,
            ..
        } => match tables {
            Some(tables) => {
                let filtering = ByOutput(Changing(FilteringNamed {
                    conditions: conditions.as_slice(),
                    wanted: wanted.as_slice(),
                    names: &tables.names,
                }));
                answer_held(&filtering, alloc, place, held, output, shelf)
            }
            None => Answered::Whole(0),
        },
        Job::Filter1(conditions) => {
            let conditions = conditions.as_slice();
            let filtering = ByOutput(Filtering1 { conditions });
            answer_held(&filtering, alloc, place, held, output, shelf)
        }
        Job::Split { name, edition_1 } => {
            let edition_1 = *edition_1;
            let splitting = Splitting { name, edition_1 };
            answer_held(&splitting, alloc, place, held, output, shelf)
        }
        Job::Set { changes, dates } => {
            let (changes, dates) = (changes.as_slice(), *dates);
            let setting = ByOutput(Changing(Setting { changes, dates }));
            answer_held(&setting, alloc, place, held, output, shelf)
        }
        Job::Set1 { changes, dates } => {
            let (changes, dates) = (changes.as_slice(), *dates);
            let setting = ByOutput(Setting1 { changes, dates });
            answer_held(&setting, alloc, place, held, output, shelf)
        }
        Job::Repack(target) => {
            let target = *target;
            answer_held(
                &ByOutput(Changing(OfValues(Repacking { target }))),
                alloc,
                place,
                held,
                output,
                shelf,
            )
        }
        Job::RepackLeast(profile) => {
            let profile = *profile;
            answer_held(
                &ByOutput(Changing(OfValues(Shrinking { profile }))),
                alloc,
                place,
                held,
                output,
                shelf,
            )
        }
        Job::Rescan => {
            let edit = GridEdit::Rescan;
            answer_held(
                &ByOutput(Changing(OfValues(Rescanning { edit }))),
                alloc,
                place,
                held,
                output,
                shelf,
            )
        }
        Job::Crop(area) => {
            let edit = GridEdit::Crop(*area);
            answer_held(
                &ByOutput(Changing(OfValues(Rescanning { edit }))),
                alloc,
                place,
                held,
                output,
                shelf,
            )
        }
        Job::Within(bounds) => {
            let edit = GridEdit::Within(*bounds);
            answer_held(
                &ByOutput(Changing(OfValues(Rescanning { edit }))),
                alloc,
                place,
                held,
                output,
                shelf,
            )
        }
        Job::Migrate { local, .. } => match tables {
            Some(tables) => {
                let migrating = ByOutput(Migrating {
                    table: &tables.parameters,
                    surfaces: &tables.surfaces,
                    local: *local,
                });
                answer_held(&migrating, alloc, place, held, output, shelf)
            }
            None => Answered::Whole(0),
        },
        Job::Demote {
            keep_local,
            any_earth,
            matching,
            ..
        } => match tables {
            Some(tables) => {
                let demoting = ByOutput(Demoting {
                    table: &tables.parameters,
                    matching: *matching,
                    keep_local: *keep_local,
                    any_earth: *any_earth,
                });
                answer_held(&demoting, alloc, place, held, output, shelf)
            }
            None => Answered::Whole(0),
        },
        Job::Make { .. } | Job::Print(_) => Answered::Whole(0),
    }
}

/// Prints the points of each field of a message, their values with so many decimals or their scaled integers, and where
/// they lie if it is asked for.
fn answer_dumped<T: Sink, H: Shelf>(
    alloc: Global,
    decimals: Option<u32>,
    placed: bool,
    place: &Place,
    held: &Held<'_>,
    output: &mut T,
    shelf: &mut H,
) -> Answered
    requires job { HasPlaces (Dump decimals placed) }
    requires fields { place.now.fields ≤ 2 ^ 41 }
    ensures { IfReads (work_of (Dump decimals placed)) None (λ command.
        AnswersMessage T.contents T.faults T.settled H.contents H.faults
        result place.now.message (given command place.now (held_octets held.now)) command.uses_shelf
        output.old output.new shelf.old shelf.new) }
{
    match (decimals, placed) {
        (None, false) => {
            let dumping = ByOutput(PrintingValues(Dumping));
            answer_held(&dumping, alloc, place, held, output, shelf)
        }
        (None, true) => {
            let dumping = ByOutput(PlacedDumping);
            answer_held(&dumping, alloc, place, held, output, shelf)
        }
        (Some(places), false) => {
            let valuing = ByOutput(Valuing { places });
            answer_held(&valuing, alloc, place, held, output, shelf)
        }
        (Some(places), true) => {
            let valuing = ByOutput(PlacedValuing { places });
            answer_held(&valuing, alloc, place, held, output, shelf)
        }
    }
}

/// Prints a line for each field of a message, with names where a table of names is asked for. Nothing is said of it where
/// none is given then.
fn answer_lines<'a, T: Sink, H: Shelf>(
    alloc: Global,
    form: LineForm,
    columns: &'a [Column],
    names: &Option<Name>,
    tables: Option<&'a Tables>,
    place: &Place,
    held: &Held<'_>,
    output: &mut T,
    shelf: &mut H,
) -> Answered
    requires { place.now.fields ≤ 2 ^ 41 }
    ensures { IfReads (by_profile Stated (lines_work form columns.now names.now)) (option_copied tables.entry) (λ command.
        AnswersMessage T.contents T.faults T.settled H.contents H.faults
        result place.now.message (given command place.now (held_octets held.now)) command.uses_shelf
        output.old output.new shelf.old shelf.new) }
{
    match names {
        None => {
            let lining = ByOutput(Printing(Lining {
                form,
                columns,
                names: None,
            }));
            answer_held(&lining, alloc, place, held, output, shelf)
        }
        Some(_) => match tables {
            Some(tables) => {
                answer_named_lines(alloc, form, columns, tables, place, held, output, shelf)
            }
            None => Answered::Whole(0),
        },
    }
}

/// Prints a line for each field of a message by the table of names.
fn answer_named_lines<'a, T: Sink, H: Shelf>(
    alloc: Global,
    form: LineForm,
    columns: &'a [Column],
    tables: &'a Tables,
    place: &Place,
    held: &Held<'_>,
    output: &mut T,
    shelf: &mut H,
) -> Answered
    requires { place.now.fields ≤ 2 ^ 41 }
    ensures { AnswersMessage T.contents T.faults T.settled H.contents H.faults
        result place.now.message (given (lining form columns.now tables.now) place.now (held_octets held.now)) false
        output.old output.new shelf.old shelf.new }
{
    let names = Some(&tables.names);
    let lining = ByOutput(Printing(Lining {
        form,
        columns,
        names,
    }));
    answer_held(&lining, alloc, place, held, output, shelf)
}
