//! Messages with other values of some numbers of Section 1.

ghost use Rattle.std.specs.Prelude.{◌≡◌, ◌+◌, ◌++◌, ◌≤◌, ◌<◌, ◌^◌, length, None, Some, All, IsTrue, IfOk, OnOk, IfSome, MatchResult};
ghost use Rattle.grib_keys.specs.Keys1.{can_set1};
ghost use Rattle.grib1_sections.specs.Acceptance.{identification};
ghost use Rattle.grib1_select.specs.declared.changing.SetFault1.TheVariants.{Memory};
ghost use Rattle.grib1_select.specs.Changed as definitions;
ghost use Rattle.grib1_select.specs.Changed.{octet_count, with_key1, with_changes1, with_keys1, set_fault1, IsSetFault1};

use crate::condition::Change1;
use byteorder::{BigEndian, ByteOrder};
use grib1_sections::{Key1, Message1};
use std::alloc::{AllocError, Global};
use thiserror::Error;

/// Why no number of Section 1 was changed.
#[derive(Clone, Copy, Debug, PartialEq, Eq, Error)]
pub enum SetFault1 {
    /// The value does not fit the octets of the key.
    #[error("the value of {key} does not fit")]
    KeyRange { key: Key1 },
    /// There is no memory.
    #[error("out of memory")]
    Memory,
}

impl From<AllocError> for SetFault1 {
    ghost from_gives = { λ _ fault. fault ≡ Memory };

    fn from(_error: AllocError) -> SetFault1 {
        SetFault1::Memory
    }
}

/// The message with other values of some numbers of Section 1. All other octets are copied. Where a key stands twice,
/// its last value stays.
///
/// # Errors
///
/// The value of this key, the first such, does not fit its octets. Or there is no memory.
pub fn set_keys1(
    alloc: Global,
    message: &Message1<'_>,
    changes: &[Change1],
) -> Result<Vec<u8>, SetFault1>
    requires { All (λ c. IsTrue (can_set1 c.key)) changes.now }
    ensures { MatchResult result
        (λ octets. (set_fault1 changes.now ≡ None) × (octets.items ≡ with_keys1 message.now changes.now))
        (IsSetFault1 (set_fault1 changes.now)) }
{
    for change in changes {
        if new_number(change).is_none() {
            return Err(SetFault1::KeyRange { key: change.key });
        }
    }
    Ok(write_changed(alloc, message, changes)?)
}

/// The octets of the message with these changes.
fn write_changed(
    alloc: Global,
    message: &Message1<'_>,
    changes: &[Change1],
) -> Result<Vec<u8>, AllocError>
    ensures { IfOk result (λ octets. octets.items ≡ with_keys1 message.now changes.now) }
{
    let octets = message.octets();
    let section = identification(message);
    let mut out = Vec::with_capacity(alloc, octets.len())?;
    out.extend_from_slice(&octets[..8])?;
    append_changed(section, changes, &mut out)?;
    out.extend_from_slice(&octets[8 + section.len()..])?;
    Ok(out)
}

/// Section 1, which each message has, from octet 9 on.
fn identification<'a>(message: &Message1<'a>) -> &'a [u8]
    ensures section { result.now ≡ identification message.now }
    ensures least { 28 ≤ length result.now }
    ensures there { 8 + length result.now ≤ length message.now }
{
    // That the message is accepted says where the section ends.
    let _accepted = message.octets();
    let Some(section) = message.section(1) else {
        unreachable!();
    };
    section
}

/// Appends a Section 1 with these changes.
fn append_changed(section: &[u8], changes: &[Change1], out: &mut Vec<u8>) -> Result<(), AllocError>
    requires { 28 ≤ length section.now }
    ensures { OnOk result (out.new.items ≡ out.old.items ++ with_changes1 changes.now section.now) }
{
    let start = out.len();
    out.extend_from_slice(section)?;
    change_section(&mut out[start..], changes);
    Ok(())
}

/// Makes these changes in a Section 1.
fn change_section(section: &mut [u8], changes: &[Change1])
    requires { 28 ≤ length section.old }
    ensures { section.new ≡ with_changes1 changes.now section.old }
{
    for change in changes {
        change_number(section, change);
    }
}

/// Makes a change in a Section 1.
fn change_number(section: &mut [u8], change: &Change1)
    requires { 28 ≤ length section.old }
    ensures { section.new ≡ with_key1 change.now section.old }
{
    let place = change.key.place();
    let number = new_number(change).unwrap_or(0);
    BigEndian::write_uint(
        &mut section[place.first - 1..],
        number,
        place.last - place.first + 1,
    );
}

/// The number that the octets of the key are to make, `None` where the value does not fit.
fn new_number(change: &Change1) -> Option<u64>
    ensures number { result ≡ definitions.new_number1 change.now }
    ensures fits { IfSome result (λ number. number < 256 ^ octet_count change.now.key) }
{
    let place = change.key.place();
    let most = if place.first == place.last {
        0xff
    } else {
        0xffff
    };
    if change.value < 0 || change.value > most {
        return None;
    }
    Some(change.value as u64)
}
