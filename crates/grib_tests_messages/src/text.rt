//! The expected lines are written by hand.

use crate::edition1;
use crate::worked::{PLAIN, read};
use grib_base::{Fault, Reason, Refusal};
use grib_dyadic::Dyadic;
use grib_packing::Point;
use grib_text::{
    append_point_line, check_line, list_line1, point_line, reference_line, refusal_note, total_line,
};
use std::alloc::Global;
use std::test::Fail;

#[test]
fn counts_have_lines(rt: HostRuntime) -> Result<(), Fail> {
    let line = check_line(rt.alloc(), 1, 0, 2, 183, 1)?;
    assert_eq!(rt;
        line.as_slice(),
        b"message 1 at 0 edition 2 octets 183 fields 1\n".as_slice()
    );
    let line = total_line(rt.alloc(), 1, 1, 0)?;
    assert_eq!(rt;
        line.as_slice(),
        b"messages 1 fields 1 skipped 0\n".as_slice()
    );
    Ok(())
}

/// A message of edition 1 of 76 years before the year 0, whose bitmap leaves out one point.
const CENTURY_0: &[u8] = b"GRIB\0\0\x5f\x01\
\0\0\x1c\x02\x62\x01\xff\xc0\x0b\x65\x01\xf4\x18\x0c\x1f\x17\x3b\x01\x06\x0c\x04\0\0\0\0\0\0\x01\
\0\0\x20\0\xff\0\0\x02\0\x02\0\xc3\x50\0\x27\x10\x80\0\xbf\x68\0\x2a\xf8\x03\xe8\x03\xe8\0\0\0\0\0\
\0\0\x07\x04\0\0\xbf\
\0\0\x10\x08\x80\x03\xc2\x76\xa0\0\x08\0\x01\x02\xff\07777";

/// The line of the message of edition 1 that these octets are.
fn line_of(alloc: Global, octets: &[u8], number: u64) -> Result<Vec<u8>, Fail> {
    match edition1::read(alloc, octets) {
        Ok(message) => Ok(list_line1(alloc, &message, number)?),
        Err(_) => Err(Fail::from("refused")),
    }
}

#[test]
fn messages_of_edition_1_have_their_line(rt: HostRuntime) -> Result<(), Fail> {
    let plain = line_of(rt.alloc(), edition1::PLAIN, 1)?;
    assert_eq!(rt;
        plain.as_slice(),
        b"1.1 ed=1 centre=98 time=2024-01-15T12:00 grid=0 points=4 param=2.11 unit=1 range=0 p1=6 p2=0 level=100:500 bits=8 values=4\n".as_slice()
    );
    let early = line_of(rt.alloc(), CENTURY_0, 12)?;
    assert_eq!(rt;
        early.as_slice(),
        b"12.1 ed=1 centre=98 time=-076-12-31T23:59 grid=0 points=4 param=2.11 unit=1 range=4 p1=6 p2=12 level=101:500 bits=8 values=3\n".as_slice()
    );
    Ok(())
}

#[test]
fn reference_has_its_line(rt: HostRuntime) -> Result<(), Fail> {
    let reference = Dyadic::from_ieee(0xc2ed4000).ok().ok_or("not finite")?;
    let line = reference_line(rt.alloc(), &reference, 0x8003, 1)?;
    assert_eq!(rt;
        line.as_slice(),
        b"reference -949*2^-3 binary -3 decimal 1\n".as_slice()
    );
    let line = reference_line(rt.alloc(), &Dyadic::from_ibm(0xc276a000), 0x8003, 1)?;
    assert_eq!(rt;
        line.as_slice(),
        b"reference -949*2^-3 binary -3 decimal 1\n".as_slice()
    );
    Ok(())
}

#[test]
fn points_have_lines(rt: HostRuntime) -> Result<(), Fail> {
    let mut lines = point_line(rt.alloc(), 1, &Point::Scaled(0))?;
    append_point_line(&mut lines, 4, &Point::Scaled(255))?;
    append_point_line(&mut lines, 2, &Point::Missing)?;
    append_point_line(&mut lines, 3, &Point::Missing2)?;
    append_point_line(&mut lines, 2, &Point::Scaled(-5))?;
    append_point_line(&mut lines, u32::MAX, &Point::Scaled(i64::MIN))?;
    let expected = b"1 0\n4 255\n2 missing\n3 missing2\n2 -5\n4294967295 -9223372036854775808\n";
    assert_eq!(rt; lines.as_slice(), expected.as_slice());
    Ok(())
}

#[test]
fn refusal_has_its_note(rt: HostRuntime) -> Result<(), Fail> {
    let fault = Fault {
        octet: 155,
        reason: Reason::ReferenceNotFinite,
        detail: 2139095040,
    };
    let note = refusal_note(rt.alloc(), &Refusal { message: 1, fault })?;
    assert_eq!(rt;
        note.as_slice(),
        b"refused message 1 octet 155 ReferenceNotFinite 2139095040\n".as_slice()
    );
    Ok(())
}
