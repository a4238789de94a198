//! Which messages some octets hold.

use grib::{Fault, ReadError, Reason, messages, read};
use grib_samples::{FIRST_EDITION, PLAIN, TWO_FIELDS, edited};
use grib_synthetic::made_message;
use std::test::Fail;

/// The reference value of the plain message, octets 155 to 158, as an infinity.
const INFINITE: [(usize, u8); 4] = [(155, 0x7f), (156, 0x80), (157, 0), (158, 0)];

#[test]
fn what_is_no_message_is_refused(rt: HostRuntime) -> Result<(), Fail> {
    let alloc = rt.alloc();
    assert!(rt; matches!(read(alloc, b""), Err(ReadError::NoMessage)));
    assert!(rt; matches!(read(alloc, b"BUFR...."), Err(ReadError::NoMessage)));
    let Err(error) = read(alloc, &PLAIN[..100]) else {
        return Err(Fail::from("read"));
    };
    let fault = Fault::at(101, Reason::Truncated, 100);
    assert_eq!(rt; error, ReadError::Refused { place: 0, fault });
    assert_eq!(rt;
        format!(in alloc; "{error}")?.as_str(),
        "message at 0: octet 101 Truncated 100"
    );
    Ok(())
}

#[test]
fn messages_of_both_editions_come_in_their_order(rt: HostRuntime) -> Result<(), Fail> {
    let alloc = rt.alloc();
    let mut octets = Vec::new(alloc);
    for part in [
        b"SXXX01 EDZW\n".as_slice(),
        PLAIN.as_slice(),
        FIRST_EDITION,
        b"GRI".as_slice(),
        TWO_FIELDS.as_slice(),
        b"\0GRI".as_slice(),
    ] {
        octets.extend_from_slice(part)?;
    }
    let mut seen = Vec::new(alloc);
    for message in messages(alloc, &octets) {
        let Ok(message) = message else {
            return Err(Fail::from("refused"));
        };
        seen.push((
            message.edition(),
            message.field_count(),
            message.octets().len(),
        ))?;
    }
    assert_eq!(rt;
        seen.as_slice(),
        [(2, 1, 183), (1, 1, 88), (2, 2, 252)].as_slice()
    );
    Ok(())
}

#[test]
fn the_search_goes_on_behind_a_refusal(rt: HostRuntime) -> Result<(), Fail> {
    let alloc = rt.alloc();
    let mut octets = Vec::new(alloc);
    octets.extend_from_slice(&PLAIN)?;
    octets.extend_from_slice(edited(alloc, &PLAIN, &INFINITE)?.as_slice())?;
    octets.extend_from_slice(&PLAIN)?;
    let mut left = messages(alloc, &octets);
    assert!(rt; matches!(left.next(), Some(Ok(_))));
    let Some(Err(error)) = left.next() else {
        return Err(Fail::from("read"));
    };
    let fault = Fault::at(155, Reason::ReferenceNotFinite, 2_139_095_040);
    assert_eq!(rt; error, ReadError::Refused { place: 183, fault });
    assert!(rt; matches!(left.next(), Some(Ok(_))));
    assert!(rt; left.next().is_none());
    // Without `7777` at its stated end, a refusal is skipped behind its `GRIB`, and what it holds is found.
    let mut octets = Vec::new(alloc);
    octets.extend_from_slice(&PLAIN[..100])?;
    octets.extend_from_slice(FIRST_EDITION)?;
    let mut left = messages(alloc, &octets);
    let Some(Err(error)) = left.next() else {
        return Err(Fail::from("read"));
    };
    assert!(rt; matches!(error, ReadError::Refused { place: 0, .. }));
    let Some(Ok(message)) = left.next() else {
        return Err(Fail::from("refused"));
    };
    assert_eq!(rt; message.octets(), FIRST_EDITION);
    assert!(rt; left.next().is_none());
    Ok(())
}

#[test]
fn large_messages_come_whole(rt: HostRuntime) -> Result<(), Fail> {
    let alloc = rt.alloc();
    let made = made_message(alloc, 7, 360, 181)?;
    let mut octets = Vec::new(alloc);
    for _ in 0..6 {
        octets.extend_from_slice(made.as_slice())?;
    }
    let mut count: u64 = 0;
    let mut values: u64 = 0;
    for message in messages(alloc, &octets) {
        let Ok(message) = message else {
            return Err(Fail::from("refused"));
        };
        count = count.saturating_add(1);
        assert!(rt; message.octets() == made.as_slice());
        for field in message.fields() {
            for _ in field.points(alloc)? {
                values = values.saturating_add(1);
            }
        }
    }
    assert_eq!(rt; count, 6);
    assert_eq!(rt; values, 390_960);
    Ok(())
}
