//! Changed messages whose reference time may be asked to be a date and time.

ghost use Rattle.std.specs.Prelude.{◌≡◌, ℕ, ◌++◌, length, is_some, IfOk};
ghost use Rattle.grib_command.specs.Answering.{AnswersByOutput};
ghost use Rattle.grib_command.specs.Command.{given_unless};
ghost use Rattle.grib_command.specs.Pending.{WritesTo};
ghost use Rattle.grib_edit.specs.Setting.{date_cause};

use grib_command::{Answered, write_counted, written};
use grib_dates::Dates;
use grib_io::{Sink, Stop};
use grib_stream::Cause;

/// Writes a changed message, which stands in two pieces, with a reference time that is valid or not, unless it is to
/// be valid and is not.
pub(crate) fn write_dated<T: Sink>(
    dates: Dates,
    is_valid: bool,
    front: &[u8],
    rest: &[u8],
    output: &mut T,
) -> Answered
    ensures { (m : ℕ) → AnswersByOutput T.contents T.faults T.settled result m
        (given_unless (date_cause dates is_valid) m (front.now ++ rest.now)) output.old output.new }
{
    if is_refused(dates, is_valid) {
        return Answered::Kept(Cause::Date);
    }
    written(write_both(output, front, rest))
}

/// Writes two pieces, one after the other, and answers how many octets they have.
fn write_both<T: Sink>(output: &mut T, front: &[u8], rest: &[u8]) -> Result<u64, Stop>
    ensures writes { WritesTo T.contents T.faults T.settled result output.old output.new (front.now ++ rest.now) }
    ensures count { IfOk result (λ count. count ≡ length (front.now ++ rest.now)) }
{
    let before = write_counted(output, front)?;
    let after = write_counted(output, rest)?;
    Ok(before + after)
}

/// Whether a reference time is to be valid and is not.
fn is_refused(dates: Dates, is_valid: bool) -> bool
    ensures { result ≡ is_some (date_cause dates is_valid) }
{
    match dates {
        Dates::Any => false,
        Dates::Valid => !is_valid,
    }
}
