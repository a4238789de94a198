//! What messages are repacked and migrated to.

use grib::{
    Loss, MigrateError, MigrateFault, RepackError, RepackFault, RepackTarget, Table, migrate, read,
    repack,
};
use grib_samples::{
    FIRST_EDITION, FOUR_NUMBERS, GRID, IDENTIFICATION, MIGRATED, NO_BITMAP, OWN_BITMAP, PLAIN,
    PRODUCT, TABLE, TWO_FIELDS, edited, message_of,
};
use std::test::Fail;

/// The numbers 10, 12, 15 and 19 in 8 bits each.
const RISING: &[u8] = b"\0\0\0\x09\x07\x0a\x0c\x0f\x13";

/// Second differences, in one group of no bits.
const DIFFERENCES: &[u8] = b"\0\0\0\x31\x05\0\0\0\x04\0\x03\xc2\xed\x40\0\x80\x03\0\x01\0\0\
\x01\0\xff\xff\xff\xff\xff\xff\xff\xff\0\0\0\x01\0\0\0\0\0\x01\x01\0\0\0\x04\x06\x02\x01";

/// The first numbers 10 and 12, and the differences 1 and 1, of which 1 is the least.
const DIFFERENCE: &[u8] = b"\0\0\0\x09\x07\x0a\x0c\x01\x0c";

/// Three numbers of three bits each, the fewest for 3, 4 and 5.
const THREE_IN_THREE_BITS: &[u8] =
    b"\0\0\0\x15\x05\0\0\0\x03\0\0\xc2\xed\x40\0\x80\x03\0\x01\x03\0";

/// The numbers 3, 4 and 5 in three bits each.
const SECOND_VALUES_IN_BITS: &[u8] = b"\0\0\0\x07\x07\x72\x80";

/// Four numbers of 32 bits each.
const FOUR_IN_32_BITS: &[u8] = b"\0\0\0\x15\x05\0\0\0\x04\0\0\xc2\xed\x40\0\x80\x03\0\x01\x20\0";

/// The numbers 2^31, 1, 2 and 3 in 32 bits each.
const GREAT_FIRST: &[u8] = b"\0\0\0\x15\x07\x80\0\0\0\0\0\0\x01\0\0\0\x02\0\0\0\x03";

#[test]
fn a_message_is_repacked(rt: HostRuntime) -> Result<(), Fail> {
    let alloc = rt.alloc();
    let from = message_of(
        alloc,
        183,
        &[
            IDENTIFICATION,
            GRID,
            PRODUCT,
            FOUR_NUMBERS,
            NO_BITMAP,
            RISING,
        ],
    )?;
    let to = message_of(
        alloc,
        211,
        &[
            IDENTIFICATION,
            GRID,
            PRODUCT,
            DIFFERENCES,
            NO_BITMAP,
            DIFFERENCE,
        ],
    )?;
    let message = read(alloc, from.as_slice())?;
    let Some(second) = message.edition_2() else {
        return Err(Fail::from("another edition"));
    };
    assert!(rt; message.edition_1().is_none());
    let octets = repack(alloc, &second, RepackTarget::Spatial(2))?;
    assert_eq!(rt; octets.as_slice(), to.as_slice());
    let message = read(alloc, octets.as_slice())?;
    let Some(second) = message.edition_2() else {
        return Err(Fail::from("another edition"));
    };
    let octets = repack(alloc, &second, RepackTarget::Spatial(2))?;
    assert_eq!(rt; octets.as_slice(), to.as_slice());
    Ok(())
}

#[test]
fn a_message_is_migrated(rt: HostRuntime) -> Result<(), Fail> {
    let alloc = rt.alloc();
    let table = Table::read(alloc, TABLE)?;
    let message = read(alloc, FIRST_EDITION)?;
    let Some(first) = message.edition_1() else {
        return Err(Fail::from("another edition"));
    };
    let octets = migrate(alloc, first, &table, false)?;
    assert_eq!(rt; octets.as_slice(), MIGRATED);
    // Parameter 12 is not in the table.
    let other = edited(alloc, FIRST_EDITION, &[(17, 12)])?;
    let message = read(alloc, other.as_slice())?;
    let Some(first) = message.edition_1() else {
        return Err(Fail::from("another edition"));
    };
    let lost = migrate(alloc, first, &table, false);
    assert!(rt; matches!(&lost, Err(MigrateFault::Lost(Loss::Parameter))));
    Ok(())
}

#[test]
fn a_message_changes_itself(rt: HostRuntime) -> Result<(), Fail> {
    let alloc = rt.alloc();
    let sections: [&[u8]; 6] = [
        IDENTIFICATION,
        GRID,
        PRODUCT,
        FOUR_NUMBERS,
        NO_BITMAP,
        RISING,
    ];
    let from = message_of(alloc, 183, &sections)?;
    let sections: [&[u8]; 6] = [
        IDENTIFICATION,
        GRID,
        PRODUCT,
        DIFFERENCES,
        NO_BITMAP,
        DIFFERENCE,
    ];
    let to = message_of(alloc, 211, &sections)?;
    let message = read(alloc, from.as_slice())?;
    let octets = message.repack(alloc, RepackTarget::Spatial(2))?;
    assert_eq!(rt; octets.as_slice(), to.as_slice());
    for field in message.fields() {
        let octets = field.repack(alloc, RepackTarget::Spatial(2))?;
        assert_eq!(rt; octets.as_slice(), to.as_slice());
    }
    let none = message.repack(alloc, RepackTarget::Spatial(3));
    assert!(rt; matches!(none, Err(RepackError::NoPacking)));
    let table = Table::read(alloc, TABLE)?;
    let second = message.migrate(alloc, &table);
    assert!(rt; matches!(second, Err(MigrateError::EditionTwo)));
    let message = read(alloc, FIRST_EDITION)?;
    let octets = message.migrate(alloc, &table)?;
    assert_eq!(rt; octets.as_slice(), MIGRATED);
    let first = message.repack(alloc, RepackTarget::Simple);
    assert!(rt; matches!(first, Err(RepackError::EditionOne)));
    Ok(())
}

#[test]
fn a_field_is_repacked_alone(rt: HostRuntime) -> Result<(), Fail> {
    let alloc = rt.alloc();
    let sections: [&[u8]; 6] = [
        IDENTIFICATION,
        GRID,
        PRODUCT,
        THREE_IN_THREE_BITS,
        OWN_BITMAP,
        SECOND_VALUES_IN_BITS,
    ];
    let second = message_of(alloc, 182, &sections)?;
    let message = read(alloc, &TWO_FIELDS)?;
    for field in message.fields() {
        let octets = field.repack(alloc, RepackTarget::Simple)?;
        assert_eq!(rt; field.number() == 2, octets.as_slice() == second.as_slice());
        let octets = field.repack(alloc, RepackTarget::Complex)?;
        let alone = read(alloc, &octets)?;
        assert_eq!(rt; alone.field_count(), 1);
        for packed in alone.fields() {
            let values = packed.values(alloc)?;
            assert!(rt; values.as_slice() == field.values(alloc)?.as_slice());
        }
    }
    let message = read(alloc, &PLAIN)?;
    for field in message.fields() {
        let target = RepackTarget::Coded {
            block: 7,
            interval: 128,
        };
        let none = field.repack(alloc, target);
        assert!(rt; matches!(none, Err(RepackError::NoPacking)));
    }
    Ok(())
}

#[test]
fn what_does_not_fit_is_printed(rt: HostRuntime) -> Result<(), Fail> {
    let alloc = rt.alloc();
    let sections: [&[u8]; 6] = [
        IDENTIFICATION,
        GRID,
        PRODUCT,
        FOUR_IN_32_BITS,
        NO_BITMAP,
        GREAT_FIRST,
    ];
    let octets = message_of(alloc, 195, &sections)?;
    let message = read(alloc, octets.as_slice())?;
    let Err(error) = message.repack(alloc, RepackTarget::Spatial(1)) else {
        return Err(Fail::from("repacked"));
    };
    assert_eq!(rt;
        error,
        RepackError::Misfit(RepackFault::DifferenceRange { field: 1 })
    );
    assert_eq!(rt;
        format!(in alloc; "{error}")?.as_str(),
        "field 1: the spatial differences are out of range"
    );
    let table = Table::read(alloc, TABLE)?;
    // Parameter 12 is not in the table.
    let other = edited(alloc, FIRST_EDITION, &[(17, 12)])?;
    let message = read(alloc, other.as_slice())?;
    let lost = message.migrate(alloc, &table);
    assert!(rt;
        matches!(
            lost,
            Err(MigrateError::Loss(MigrateFault::Lost(Loss::Parameter)))
        )
    );
    Ok(())
}
