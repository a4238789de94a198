//! Whether a message fulfils conditions on its numbers of Section 1.

ghost use Rattle.std.specs.Prelude.{◌≡◌, ◌↔◌, IsTrue, All};
ghost use Rattle.grib1_select.specs.Values.{Fulfils1, fulfils1, fulfils_all1};

use crate::condition::Wanted1;
use grib_keys::Value;
use grib1_sections::Message1;

/// Whether what is asked holds of each of these numbers of a message. It takes no memory.
pub fn matches1(message: &Message1<'_>, conditions: &[Wanted1]) -> bool
    ensures answer { result ≡ fulfils_all1 message.now conditions.now }
    ensures exactly { IsTrue result ↔ All (Fulfils1 message.now) conditions.now }
{
    for condition in conditions {
        if !is_fulfilled(message, condition) {
            return false;
        }
    }
    true
}

/// Whether what is asked holds of the number.
fn is_fulfilled(message: &Message1<'_>, condition: &Wanted1) -> bool
    ensures { result ≡ fulfils1 message.now condition.now }
{
    let value = Value::Number(message.number1(condition.key));
    condition.test.holds(value)
}
