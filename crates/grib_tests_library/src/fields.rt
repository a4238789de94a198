//! What the fields of a message hold.

use grib::{Field, Grid, Key, Key1, KeyValue, Message, Product, SignBit, Value, read};
use grib_samples::{FIRST_EDITION, MASKED, PLAIN, TWO_FIELDS, between, edited};
use std::alloc::Global;
use std::test::Fail;

/// The field with this number.
fn field_of<'m, 'a>(message: &'m Message<'a>, number: u32) -> Result<Field<'m, 'a>, Fail> {
    for field in message.fields() {
        if field.number() == number {
            return Ok(field);
        }
    }
    Err(Fail::from("no such field"))
}

/// The values of a field with four decimals, one a line.
fn values_of(alloc: Global, field: &Field<'_, '_>) -> Result<String, Fail> {
    let mut text = String::new(alloc);
    for value in field.points(alloc)? {
        match value {
            Value::Number(exact) => text.push_str(exact.decimal(alloc, 4)?.as_str())?,
            Value::Missing => text.push_str("missing")?,
        }
        text.push('\n')?;
    }
    Ok(text)
}

#[test]
fn keys_are_those_of_the_edition(rt: HostRuntime) -> Result<(), Fail> {
    let alloc = rt.alloc();
    let message = read(alloc, &PLAIN)?;
    let field = field_of(&message, 1)?;
    assert_eq!(rt; field.get(Key::Centre), Some(KeyValue::Number(98)));
    assert_eq!(rt; field.get(Key::Surface2), Some(KeyValue::Missing));
    assert_eq!(rt; field.get(Key::EnsembleNumber), None);
    assert_eq!(rt; field.get1(Key1::Centre), None);
    let message = read(alloc, FIRST_EDITION)?;
    let field = field_of(&message, 1)?;
    assert_eq!(rt; field.get1(Key1::Parameter), Some(11));
    assert_eq!(rt; field.get1(Key1::Level), Some(500));
    assert_eq!(rt; field.get(Key::Centre), None);
    Ok(())
}

#[test]
fn a_field_lists_its_keys(rt: HostRuntime) -> Result<(), Fail> {
    let alloc = rt.alloc();
    let message = read(alloc, &PLAIN)?;
    let field = field_of(&message, 1)?;
    let mut keys = field.keys();
    assert_eq!(rt; keys.next(), Some((Key::Discipline, KeyValue::Number(0))));
    assert_eq!(rt; keys.next(), Some((Key::Centre, KeyValue::Number(98))));
    // A product at an instant has no numbers of an ensemble, of an interval or of a time range.
    let mut count = 0u32;
    for _key in field.keys() {
        count = count.saturating_add(1);
    }
    assert_eq!(rt; count, 37);
    assert!(rt; field.keys1().next().is_none());
    let message = read(alloc, FIRST_EDITION)?;
    let field = field_of(&message, 1)?;
    let mut count = 0u32;
    for _key in field.keys1() {
        count = count.saturating_add(1);
    }
    assert_eq!(rt; count, 22);
    assert!(rt;
        field
            .keys1()
            .any(|(key, number)| key == Key1::Parameter && number == 11)
    );
    assert!(rt; field.keys().next().is_none());
    Ok(())
}

#[test]
fn grids_and_products_have_names(rt: HostRuntime) -> Result<(), Fail> {
    let alloc = rt.alloc();
    let message = read(alloc, &PLAIN)?;
    let field = field_of(&message, 1)?;
    let Some(grid) = field.grid(alloc)? else {
        return Err(Fail::from("no grid"));
    };
    let Grid::LatLon(grid) = grid.grid else {
        return Err(Fail::from("another grid"));
    };
    assert_eq!(rt;
        (grid.ni, grid.nj, grid.la1, grid.di),
        (2, 2, 50_000_000, 1_000_000)
    );
    let Some(product) = field.product(alloc)? else {
        return Err(Fail::from("no product"));
    };
    let Product::Instant(instant) = product.product else {
        return Err(Fail::from("another product"));
    };
    assert_eq!(rt; (instant.category, instant.number, instant.time), (0, 0, 6));
    assert_eq!(rt; grid.la1.signed(), Some(50_000_000));
    assert_eq!(rt; instant.time.signed(), Some(6));
    assert_eq!(rt; instant.scale1.signed(), Some(0));
    assert_eq!(rt; instant.scale2.signed(), None);
    let message = read(alloc, FIRST_EDITION)?;
    let field = field_of(&message, 1)?;
    assert!(rt; field.grid(alloc)?.is_none());
    assert!(rt; field.product(alloc)?.is_none());
    Ok(())
}

#[test]
fn the_first_bit_is_the_sign(rt: HostRuntime) -> Result<(), Fail> {
    assert_eq!(rt; 0x82fa_f080u32.signed(), Some(-50_000_000));
    assert_eq!(rt; u32::MAX.signed(), None);
    assert_eq!(rt; 0x82u8.signed(), Some(-2));
    assert_eq!(rt; u8::MAX.signed(), None);
    Ok(())
}

#[test]
fn values_are_exact_in_both_editions(rt: HostRuntime) -> Result<(), Fail> {
    let alloc = rt.alloc();
    let message = read(alloc, &TWO_FIELDS)?;
    let text = values_of(alloc, &field_of(&message, 1)?)?;
    assert_eq!(rt; text.as_str(), "-11.8625\nmissing\n-11.8500\n-11.8375\n");
    let text = values_of(alloc, &field_of(&message, 2)?)?;
    assert_eq!(rt; text.as_str(), "-11.8250\nmissing\n-11.8125\n-11.8000\n");
    let message = read(alloc, FIRST_EDITION)?;
    let text = values_of(alloc, &field_of(&message, 1)?)?;
    assert_eq!(rt; text.as_str(), "-11.8625\n-11.8500\n-11.8375\n-8.6750\n");
    // (1 + X * 2) * 100 for X = 5, 6 and 7
    let message = read(alloc, MASKED)?;
    let text = values_of(alloc, &field_of(&message, 1)?)?;
    assert_eq!(rt; text.as_str(), "1100.0000\nmissing\n1300.0000\n1500.0000\n");
    Ok(())
}

#[test]
fn there_is_a_value_for_each_point(rt: HostRuntime) -> Result<(), Fail> {
    let alloc = rt.alloc();
    let message = read(alloc, &TWO_FIELDS)?;
    assert_eq!(rt; message.fields().len(), 2);
    let field = field_of(&message, 2)?;
    assert_eq!(rt; field.points(alloc)?.count(), 4);
    let mut values = field.points(alloc)?;
    assert_eq!(rt; values.len(), 4);
    assert!(rt; values.next().is_some());
    assert_eq!(rt; values.len(), 3);
    let message = read(alloc, MASKED)?;
    assert_eq!(rt; field_of(&message, 1)?.points(alloc)?.len(), 4);
    Ok(())
}

#[test]
fn values_are_numbers_of_the_machine(rt: HostRuntime) -> Result<(), Fail> {
    let alloc = rt.alloc();
    let message = read(alloc, &TWO_FIELDS)?;
    let numbers = field_of(&message, 1)?.values(alloc)?;
    let expected = [Some(-11.8625), None, Some(-11.85), Some(-11.8375)];
    assert!(rt; numbers.as_slice() == expected.as_slice());
    let message = read(alloc, MASKED)?;
    let numbers = field_of(&message, 1)?.values(alloc)?;
    let expected = [Some(1100.0), None, Some(1300.0), Some(1500.0)];
    assert!(rt; numbers.as_slice() == expected.as_slice());
    // 42 * 10^308 and more
    let octets = edited(
        alloc,
        &PLAIN,
        &[
            (155, 0x42),
            (156, 0x28),
            (157, 0),
            (158, 0),
            (159, 0),
            (160, 0),
            (161, 0x81),
            (162, 0x34),
        ],
    )?;
    let message = read(alloc, octets.as_slice())?;
    let numbers = field_of(&message, 1)?.values(alloc)?;
    assert!(rt; numbers.as_slice() == [Some(f64::INFINITY); 4].as_slice());
    Ok(())
}

#[test]
fn a_field_becomes_a_message(rt: HostRuntime) -> Result<(), Fail> {
    let alloc = rt.alloc();
    let message = read(alloc, &TWO_FIELDS)?;
    let octets = field_of(&message, 2)?.extract(alloc)?;
    let alone = read(alloc, octets.as_slice())?;
    assert_eq!(rt; alone.field_count(), 1);
    assert_eq!(rt; octets.len(), 183);
    // The bitmap is the first field's own, and the numbers are those of the second.
    assert_eq!(rt;
        between(octets.as_slice(), 164, 170),
        b"\0\0\0\x07\x06\0".as_slice()
    );
    assert_eq!(rt;
        between(octets.as_slice(), 171, 179),
        b"\0\0\0\x08\x07\x03\x04\x05".as_slice()
    );
    let message = read(alloc, FIRST_EDITION)?;
    let octets = field_of(&message, 1)?.extract(alloc)?;
    assert_eq!(rt; octets.as_slice(), FIRST_EDITION);
    Ok(())
}
