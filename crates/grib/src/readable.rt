//! The values of messages of edition 2.

ghost use Rattle.std.specs.Prelude.{◌≡◌};
ghost use Rattle.grib2_message.specs.Message.{IsMessage};

use grib2_message::laws::field_holds;
use grib2_message::{Message, ReadableMessage};

/// A message with its values. Those of each message that the profile of the stated templates accepts can be read.
pub(crate) fn readable<'m>(message: &'m Message<'_>) -> ReadableMessage<'m>
    requires { IsMessage message.now }
    ensures { result ≡ message.now }
{
    field_holds();
    ReadableMessage::known(message)
}
