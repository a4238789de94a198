//! What comes of a message.

ghost use Rattle.std.specs.Prelude.{◌≡◌};
ghost use Rattle.grib_reasons.specs.declared.cause.Cause.TheVariants.{Packing};
ghost use Rattle.grib_command.specs.declared.answered.Answered.TheVariants.{Kept};
ghost use Rattle.grib_command.specs.Answering.{answered_printed, answered_stopped, answered_written};

use grib_io::Stop;
use grib_stream::Cause;
use grib2_message::OpaqueField;

/// What came of a message.
#[derive(Clone, Copy, Debug, PartialEq, Eq)]
pub enum Answered {
    /// Its result was appended to the output, or put on the shelf. This many octets of it are counted; of what
    /// is printed none is.
    Whole(u64),
    /// It cannot be changed as asked. Nothing was written.
    Kept(Cause),
    /// The output failed.
    WriteFault,
    /// The shelf failed.
    ShelfFault,
    /// No memory.
    Memory,
}

/// What came of a message of which a text was to be printed.
pub fn printed(text: Result<(), Stop>) -> Answered
    ensures { result ≡ answered_printed text }
{
    match text {
        Ok(()) => Answered::Whole(0),
        Err(stop) => stopped(stop),
    }
}

/// What came of a message of which octets were to be written and counted.
pub fn written(octets: Result<u64, Stop>) -> Answered
    ensures { result ≡ answered_written octets }
{
    match octets {
        Ok(count) => Answered::Whole(count),
        Err(stop) => stopped(stop),
    }
}

/// What comes of a message whose values cannot be read, for this field.
pub fn unreadable(opaque: OpaqueField) -> Answered
    ensures { result ≡ Kept (Packing opaque.template opaque.field) }
{
    Answered::Kept(Cause::Packing {
        template: opaque.template,
        field: opaque.field,
    })
}

/// What came of a message within whose result the output stopped.
fn stopped(stop: Stop) -> Answered
    ensures { result ≡ answered_stopped stop }
{
    match stop {
        Stop::Failed => Answered::WriteFault,
        Stop::Memory => Answered::Memory,
    }
}
