//! Whether a field fulfils conditions on its keys.

ghost use Rattle.std.specs.Prelude.{◌≡◌, ◌↔◌, ◌≤◌, IsTrue, All};
ghost use Rattle.grib2_message.specs.Fields.{field_count};
ghost use Rattle.grib_select.specs.Values.{Fulfils, fulfils, fulfils_all};

use crate::value::key_value;
use grib_keys::Wanted;
use grib2_message::Message;

/// Whether a field, counted from 1, has every key with a value of which holds what is asked. It takes no memory.
pub fn matches(message: &Message<'_>, field: u32, conditions: &[Wanted]) -> bool
    requires first { 1 ≤ field }
    requires last { field ≤ field_count message.now }
    ensures answer { result ≡ fulfils_all message.now field conditions.now }
    ensures exactly { IsTrue result ↔ All (Fulfils message.now field) conditions.now }
{
    for condition in conditions {
        if !is_fulfilled(message, field, condition) {
            return false;
        }
    }
    true
}

/// Whether a field has the key with a value of which holds what is asked.
fn is_fulfilled(message: &Message<'_>, field: u32, condition: &Wanted) -> bool
    requires first { 1 ≤ field }
    requires last { field ≤ field_count message.now }
    ensures { result ≡ fulfils message.now field condition.now }
{
    match key_value(message, field, condition.key) {
        Some(value) => condition.test.holds(value),
        None => false,
    }
}
