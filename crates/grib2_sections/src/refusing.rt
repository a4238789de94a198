//! Refusals of a message.

ghost use Rattle.std.specs.Prelude.{◌≡◌, ◌+◌, ◌-◌, ◌^◌, ◌<◌};
ghost use Rattle.grib_base.specs.Rules as acceptance;

use grib_base::{Fault, Reason};

/// The refusal of a message of which only `present` octets are there.
pub fn truncated(present: u64) -> Fault
    requires { present < 2 ^ 64 - 1 }
    ensures { result ≡ acceptance.refusal (present + 1) Reason.Truncated present }
{
    Fault::at(present + 1, Reason::Truncated, present)
}
