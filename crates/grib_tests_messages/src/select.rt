//! Keys of whole messages. The octets and what they hold are worked by hand from the tables of the manual.

use crate::worked::{
    FIRST_VALUES, FOUR_NUMBERS, FOUR_VALUES, GRID, IDENTIFICATION, NO_BITMAP, OWN_BITMAP, PRODUCT,
    SECOND_VALUES, THREE_NUMBERS, TWO_FIELDS, edited, message_of, read,
};
use grib_select::{Change, Key, SetFault, Value, changed_front, key_value, set_keys, single};
use grib2_message::Message;
use std::alloc::{AllocError, Global};
use std::test::Fail;

/// A member of an ensemble over an interval.
const INTERVAL: &[u8] =
    b"\0\0\0\x3d\x04\0\0\0\x0b\0\0\x02\xff\x01\0\0\0\x01\0\0\0\x06\x67\0\0\0\0\x02\
\xff\xff\xff\xff\xff\xff\x01\x03\x0a\x07\xe8\x01\x0f\x12\0\0\x01\0\0\0\0\x01\x02\x01\0\0\0\x06\x01\0\0\0\0";

/// A message of one field with this product, of this many octets.
fn of_product(alloc: Global, total: u64, product: &[u8]) -> Result<Vec<u8>, AllocError> {
    let sections = [
        IDENTIFICATION,
        GRID,
        product,
        FOUR_NUMBERS,
        NO_BITMAP,
        FOUR_VALUES,
    ];
    message_of(alloc, total, &sections)
}

/// The value of a key of the first field.
fn value_of(message: &Message<'_>, key: Key) -> Option<Value> {
    if message.fields() == 0 {
        return None;
    }
    key_value(message, 1, key)
}

fn number(x: i64) -> Option<Value> {
    Some(Value::Number(x))
}

/// A message with one change, or why there is none.
fn changed(
    alloc: Global,
    message: &Message<'_>,
    key: Key,
    value: Value,
) -> Result<Vec<u8>, SetFault> {
    if !key.can_set() {
        return Err(SetFault::Memory);
    }
    set_keys(alloc, message, &[Change { key, value }])
}

#[test]
fn a_field_is_given_its_bitmap(rt: HostRuntime) -> Result<(), Fail> {
    let Ok(message) = read(rt.alloc(), &TWO_FIELDS) else {
        return Err(Fail::from("refused"));
    };
    assert_eq!(rt; message.fields(), 2);
    let first = [
        IDENTIFICATION,
        GRID,
        PRODUCT,
        THREE_NUMBERS,
        OWN_BITMAP,
        FIRST_VALUES,
    ];
    let second = [
        IDENTIFICATION,
        GRID,
        PRODUCT,
        THREE_NUMBERS,
        OWN_BITMAP,
        SECOND_VALUES,
    ];
    let alone = single(rt.alloc(), &message, 1)?;
    let expected = message_of(rt.alloc(), 183, &first)?;
    assert!(rt; alone.as_slice() == expected.as_slice());
    let alone = single(rt.alloc(), &message, 2)?;
    let expected = message_of(rt.alloc(), 183, &second)?;
    assert!(rt; alone.as_slice() == expected.as_slice());
    Ok(())
}

/// Whether one change makes of the message just these octets.
fn gives(
    alloc: Global,
    message: &Message<'_>,
    key: Key,
    value: Value,
    edits: &[(usize, u8)],
) -> Result<bool, AllocError> {
    let expected = edited(alloc, message.octets(), edits)?;
    match changed(alloc, message, key, value) {
        Ok(octets) => Ok(octets.as_slice() == expected.as_slice()),
        Err(_) => Ok(false),
    }
}

/// How many octets begin a message with one change, up to those that are not copied.
fn front_length(alloc: Global, message: &Message<'_>, key: Key) -> Option<usize> {
    if !key.can_set() {
        return None;
    }
    let value = Value::Number(7);
    let front = changed_front(alloc, message, &[Change { key, value }]).ok()?;
    Some(front.len())
}

#[test]
fn a_front_ends_with_the_last_section_of_a_key(rt: HostRuntime) -> Result<(), Fail> {
    let Ok(message) = read(rt.alloc(), &TWO_FIELDS) else {
        return Err(Fail::from("refused"));
    };
    assert_eq!(rt;
        front_length(rt.alloc(), &message, Key::Discipline),
        Some(35)
    );
    assert_eq!(rt; front_length(rt.alloc(), &message, Key::DataType), Some(37));
    assert_eq!(rt;
        front_length(rt.alloc(), &message, Key::Scanning),
        Some(109)
    );
    assert_eq!(rt;
        front_length(rt.alloc(), &message, Key::Generator),
        Some(213)
    );
    Ok(())
}

#[test]
fn a_member_gets_its_number(rt: HostRuntime) -> Result<(), Fail> {
    let octets = of_product(rt.alloc(), 210, INTERVAL)?;
    let Ok(message) = read(rt.alloc(), octets.as_slice()) else {
        return Err(Fail::from("refused"));
    };
    assert_eq!(rt; value_of(&message, Key::EnsembleType), number(1));
    assert_eq!(rt; value_of(&message, Key::EnsembleNumber), number(3));
    assert_eq!(rt; value_of(&message, Key::EnsembleMembers), number(10));
    assert!(rt;
        gives(
            rt.alloc(),
            &message,
            Key::EnsembleNumber,
            Value::Number(5),
            &[(145, 5)]
        )?
    );
    Ok(())
}
