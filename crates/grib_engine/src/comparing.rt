//! A run that compares its input with a file.

ghost use Rattle.std.specs.Prelude.{◌≡◌, ◌||◌};
ghost use Rattle.grib_command.specs.Command.{under};
ghost use Rattle.grib_compare.specs.Command.{compare_command};
ghost use Rattle.grib_run_spec.specs.Seen.{seen};
ghost use Rattle.grib_run_spec.specs.Serving.{Serves, IfUnread};
ghost use Rattle.grib_run_spec.specs.Tasks.{ReadsFile};
ghost use Rattle.grib_engine.specs.Untabled.{outcome_unfiled};

use crate::closing::close_with_note;
use crate::reading::serve_messages;
use grib_base::Profile;
use grib_command::{ByOutput, Name};
use grib_compare::Comparing;
use grib_file::{FileStop, read_file};
use grib_io::{Shelf, Sink, Source};
use grib_items::Policy;
use grib_stream::Outcome;
use std::alloc::Global;

/// Reads the file under this name, and compares the fields of the input with its fields.
pub(crate) fn serve_compared<S: Source, T: Sink, N: Sink, H: Shelf>(
    alloc: Global,
    name: &Name,
    sections: bool,
    quiet: bool,
    profile: Profile,
    policy: Policy,
    input: &mut S,
    output: &mut T,
    notes: &mut N,
    shelf: &mut H,
) -> Outcome
    ensures serves { let see = seen S.left S.faults T.contents T.faults T.settled N.contents N.faults N.settled H.contents H.faults in
        Serves (T.takes_memory || N.takes_memory) (ReadsFile profile name.now (λ fields. under profile (compare_command sections quiet fields))) policy result
        (see input.old output.old notes.old shelf.old) (see input.new output.new notes.new shelf.new) }
    ensures unread { IfUnread (ReadsFile profile name.now (λ fields. under profile (compare_command sections quiet fields))) (H.contents shelf.old)
        (input.new ≡ input.old) }
{
    match read_file(alloc, profile, name.as_str(), shelf) {
        Ok(file) => {
            let comparing = ByOutput(Comparing {
                file: &file,
                sections,
                quiet,
            });
            serve_messages(
                &comparing, alloc, profile, policy, input, output, notes, shelf,
            )
        }
        Err(stop) => close_with_note(alloc, unfiled(stop), b"", output, notes),
    }
}

/// How a run ends that has no file to compare its input with.
fn unfiled(stop: FileStop) -> Outcome
    ensures { result ≡ outcome_unfiled stop }
{
    match stop {
        FileStop::Refused(refusal) => Outcome::FileRefused(refusal),
        FileStop::ShelfFault => Outcome::ShelfFault,
        FileStop::Memory => Outcome::Memory,
    }
}
