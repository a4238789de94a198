//! Messages with other values of some keys.

ghost use Rattle.std.specs.Prelude.{◌≡◌, ◌≢◌, ◌+◌, ◌≤◌, ◌<◌, ◌++◌, length, None, Some, All, IsTrue, IfOk, OnOk, MatchOption, MatchResult};
ghost use Rattle.grib_base.specs.declared.fault.Fault.{Fault};
ghost use Rattle.grib2_sections.specs.Frame.{End, Fails, Next, step_from, position_after};
ghost use Rattle.grib_keys.specs.Keys.{can_set};
ghost use Rattle.grib_select.specs.declared.changing.SetFault.TheVariants.{Memory};
ghost use Rattle.grib_select.specs.Values.{HasKeys};
ghost use Rattle.grib_select.specs.Changed.{with_key, with_changes, with_keys, has_change_in, up_to, with_section, IsChangedFront, change_fault, set_fault, IsSetFault};

use crate::number::new_number;
use crate::value::{key_value, place_in};
use byteorder::{BigEndian, ByteOrder};
use grib_base::Section;
use grib_keys::{Change, Key};
use grib2_message::Message;
use grib2_sections::Frame;
use std::alloc::{AllocError, Global};
use thiserror::Error;

/// Section 0, and Section 1 up to the end of the reference time.
const REFERENCE_TIME_END: usize = 16 + 19;

/// Room for the octets of Sections 0 to 4 as most messages have them.
const FRONT_ROOM: usize = 256;

/// Why no value of a key was changed. Fields count from 1.
#[derive(Clone, Copy, Debug, PartialEq, Eq, Error)]
pub enum SetFault {
    /// The value does not fit the octets of the key.
    #[error("the value of {key} does not fit")]
    KeyRange { key: Key },
    /// This field lacks the key; it is the first such field.
    #[error("field {field} has no {key}")]
    KeyAbsent { field: u32, key: Key },
    /// There is no memory.
    #[error("out of memory")]
    Memory,
}

impl From<AllocError> for SetFault {
    ghost from_gives = { λ _ fault. fault ≡ Memory };

    fn from(_error: AllocError) -> SetFault {
        SetFault::Memory
    }
}

/// The message with other values of some keys. All octets are copied but those of the keys, which change
/// in Sections 0 and 1 and in every Section 3 and 4. Where a key stands twice, its last value stays.
///
/// # Errors
///
/// The first change at fault: its value does not fit the octets of the key, or else the first field that lacks
/// the key. Or there is no memory.
pub fn set_keys(
    alloc: Global,
    message: &Message<'_>,
    changes: &[Change],
) -> Result<Vec<u8>, SetFault>
    requires { All (λ c. IsTrue (can_set c.key)) changes.now }
    ensures { MatchResult result
        (λ octets. (set_fault message.now changes.now ≡ None)
        × (octets.items ≡ with_keys message.now changes.now))
        (IsSetFault (set_fault message.now changes.now)) }
{
    let octets = message.octets();
    let mut out = changed_front(alloc, message, changes)?;
    append_up_to(octets, octets.len(), &mut out)?;
    Ok(out)
}

/// The octets that begin the message with other values of some keys, up to the end of the last section with
/// one of the keys, and of the reference time at least. Those after them are as in the message.
///
/// # Errors
///
/// As those of [`set_keys`].
pub fn changed_front(
    alloc: Global,
    message: &Message<'_>,
    changes: &[Change],
) -> Result<Vec<u8>, SetFault>
    requires { All (λ c. IsTrue (can_set c.key)) changes.now }
    ensures { MatchResult result
        (λ front. (set_fault message.now changes.now ≡ None)
        × IsChangedFront message.now changes.now front.items)
        (IsSetFault (set_fault message.now changes.now)) }
{
    check_changes(message, changes)?;
    Ok(write_front(alloc, message, changes)?)
}

/// Refuses the first change at fault.
fn check_changes(message: &Message<'_>, changes: &[Change]) -> Result<(), SetFault>
    ensures { MatchResult result (λ _. set_fault message.now changes.now ≡ None)
        (λ fault. set_fault message.now changes.now ≡ Some fault) }
{
    for change in changes {
        check_change(message, change)?;
    }
    Ok(())
}

/// Refuses a change whose value does not fit, or whose key a field lacks.
fn check_change(message: &Message<'_>, change: &Change) -> Result<(), SetFault>
    ensures { MatchResult result (λ _. change_fault message.now change.now ≡ None)
        (λ fault. change_fault message.now change.now ≡ Some fault) }
{
    let key = change.key;
    if new_number(change).is_none() {
        return Err(SetFault::KeyRange { key });
    }
    for field in 1..message.fields() + 1 {
        if key_value(message, field, key).is_none() {
            return Err(SetFault::KeyAbsent { field, key });
        }
    }
    Ok(())
}

/// The octets that begin the message with these changes.
fn write_front(
    alloc: Global,
    message: &Message<'_>,
    changes: &[Change],
) -> Result<Vec<u8>, AllocError>
    requires { All (λ c. IsTrue (can_set c.key)) changes.now }
    ensures { IfOk result (λ front. IsChangedFront message.now changes.now front.items) }
{
    let octets = message.octets();
    let mut front = Vec::with_capacity(alloc, FRONT_ROOM)?;
    append_changed(&octets[..16], 0, changes, &mut front)?;
    let mut frame = Frame::new(message.length());
    while let Some(section) = next_section(&mut frame, octets) {
        append_section(octets, &section, changes, &mut front)?;
    }
    let end = front.len().max(REFERENCE_TIME_END);
    append_up_to(octets, end, &mut front)?;
    Ok(front)
}

/// The next section of a message of which no rule refuses a section, or nothing at its end mark.
fn next_section<'a>(frame: &mut Frame, octets: &'a [u8]) -> Option<Section<'a>>
    requires { (fault : Fault) → step_from octets.now frame.old ≢ Fails fault }
    ensures { MatchOption result (step_from octets.now frame.old ≡ End)
        (λ section. (step_from octets.now frame.old ≡ Next section.octets.now)
        × (section.start ≡ frame.old.place)
        × (frame.new ≡ position_after frame.old section.octets.now)) }
{
    let Ok(section) = frame.next(octets) else {
        unreachable!();
    };
    section
}

/// Appends a section with these changes, after the octets before it, if a key of some change stands in it.
fn append_section(
    octets: &[u8],
    section: &Section<'_>,
    changes: &[Change],
    out: &mut Vec<u8>,
) -> Result<(), AllocError>
    requires settable { All (λ c. IsTrue (can_set c.key)) changes.now }
    requires keys { HasKeys section.now.number section.now.octets.now }
    requires behind { length out.old.items < section.now.start }
    requires there { section.now.start ≤ length octets.now + 1 }
    ensures { OnOk result (out.new.items
        ≡ with_section changes.now octets.now out.old.items section.now.start section.now.number section.now.octets.now) }
{
    if has_change(changes, section.number) {
        append_up_to(octets, section.start as usize - 1, out)?;
        append_changed(section.octets, section.number, changes, out)?;
    }
    Ok(())
}

/// Whether the key of some change stands in the sections with this number.
fn has_change(changes: &[Change], number: u8) -> bool
    ensures { result ≡ has_change_in changes.now number }
{
    for change in changes {
        if change.key.row().section == number {
            return true;
        }
    }
    false
}

/// Appends the octets that come next, until there are `end` of them.
fn append_up_to(octets: &[u8], end: usize, out: &mut Vec<u8>) -> Result<(), AllocError>
    requires more { length out.old.items ≤ end }
    requires there { end ≤ length octets.now }
    ensures { OnOk result (out.new.items ≡ up_to end octets.now out.old.items) }
{
    out.extend_from_slice(&octets[out.len()..end])
}

/// Appends a section with this number with these changes.
fn append_changed(
    section: &[u8],
    number: u8,
    changes: &[Change],
    out: &mut Vec<u8>,
) -> Result<(), AllocError>
    requires settable { All (λ c. IsTrue (can_set c.key)) changes.now }
    requires keys { HasKeys number section.now }
    ensures { OnOk result (out.new.items ≡ out.old.items ++ with_changes changes.now number section.now) }
{
    let start = out.len();
    out.extend_from_slice(section)?;
    change_section(&mut out[start..], number, changes);
    Ok(())
}

/// Makes these changes in a section with this number.
fn change_section(section: &mut [u8], number: u8, changes: &[Change])
    requires settable { All (λ c. IsTrue (can_set c.key)) changes.now }
    requires keys { HasKeys number section.old }
    ensures { section.new ≡ with_changes changes.now number section.old }
{
    for change in changes {
        change_key(section, number, change);
    }
}

/// Makes a change in a section with this number, if the key stands in it.
fn change_key(section: &mut [u8], number: u8, change: &Change)
    requires settable { IsTrue (can_set change.now.key) }
    requires keys { HasKeys number section.old }
    ensures changed { section.new ≡ with_key change.now number section.old }
    ensures keys { HasKeys number section.new }
{
    if change.key.row().section != number {
        return;
    }
    let Some(place) = place_in(section, change.key) else {
        return;
    };
    let raw = new_number(change).unwrap_or(0);
    BigEndian::write_uint(&mut section[place.first - 1..], raw, place.count());
}
