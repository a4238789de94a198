//! Messages of inputs that come in pieces.

use grib::{Message, ReadError, Reader, Source, messages};
use grib_io::MemorySource;
use grib_samples::{FIRST_EDITION, PLAIN, TWO_FIELDS, edited};
use grib_synthetic::made_message;
use std::alloc::Global;
use std::test::Fail;

/// The reference value of the plain message, octets 155 to 158, as an infinity.
const INFINITE: [(usize, u8); 4] = [(155, 0x7f), (156, 0x80), (157, 0), (158, 0)];

/// Messages, refusals and other octets.
fn mixed(alloc: Global, large: &[u8]) -> Result<Vec<u8>, Fail> {
    let mut octets = Vec::new(alloc);
    octets.extend_from_slice(b"SXXX01 EDZW\n")?;
    octets.extend_from_slice(&PLAIN)?;
    octets.extend_from_slice(FIRST_EDITION)?;
    octets.extend_from_slice(edited(alloc, &PLAIN, &INFINITE)?.as_slice())?;
    octets.extend_from_slice(b"GRIGRIB\0\0\0\x03")?;
    octets.extend_from_slice(&TWO_FIELDS)?;
    octets.extend_from_slice(large)?;
    octets.extend_from_slice(&PLAIN[..100])?;
    Ok(octets)
}

/// The lines for these, where the large message has so many octets.
fn expected(alloc: Global, large: usize) -> Result<String, Fail> {
    let end = large.saturating_add(729);
    let lines = format!(in alloc;
        "2 1 183\n1 1 88\nmessage at 283: octet 155 ReferenceNotFinite 2139095040\n\
        message at 469: octet 8 Edition 3\n2 2 252\n2 1 {large}\nmessage at {end}: octet 101 Truncated 100\n"
    )?;
    Ok(lines)
}

/// The line of a message or of a refusal.
fn line_of(alloc: Global, message: Result<Message<'_>, ReadError>) -> Result<String, Fail> {
    let line = match message {
        Ok(message) => {
            let edition = message.edition();
            let fields = message.field_count();
            let octets = message.octets().len();
            format!(in alloc; "{edition} {fields} {octets}\n")?
        }
        Err(error) => format!(in alloc; "{error}\n")?,
    };
    Ok(line)
}

/// A line for each message and each refusal that a reader gives.
fn read_all<S: Source>(alloc: Global, reader: &mut Reader<S>) -> Result<String, Fail> {
    let mut lines = String::new(alloc);
    while reader.advance()? {
        lines.push_str(line_of(alloc, reader.message())?.as_str())?;
    }
    Ok(lines)
}

#[test]
fn messages_and_refusals_come_in_their_order(rt: HostRuntime) -> Result<(), Fail> {
    let alloc = rt.alloc();
    let large = made_message(alloc, 7, 360, 181)?;
    let octets = mixed(alloc, large.as_slice())?;
    let mut lines = String::new(alloc);
    for message in messages(alloc, &octets) {
        lines.push_str(line_of(alloc, message)?.as_str())?;
    }
    assert_eq!(rt; lines.as_str(), expected(alloc, large.len())?.as_str());
    Ok(())
}

#[test]
fn a_reader_gives_the_same_in_any_pieces(rt: HostRuntime) -> Result<(), Fail> {
    let alloc = rt.alloc();
    let large = made_message(alloc, 7, 360, 181)?;
    let lines = expected(alloc, large.len())?;
    for piece in [1usize, 3, 64, 183, 100_000] {
        let source = MemorySource::new(mixed(alloc, large.as_slice())?, piece, Vec::new(alloc));
        let mut reader = Reader::new(alloc, source);
        let seen = read_all(alloc, &mut reader)?;
        assert_eq!(rt; seen.as_str(), lines.as_str());
        assert!(rt; !reader.advance()?);
    }
    Ok(())
}

#[test]
fn a_reader_of_std_is_read(rt: HostRuntime) -> Result<(), Fail> {
    let alloc = rt.alloc();
    let mut reader = Reader::from_reader(alloc, PLAIN.as_slice());
    assert!(rt; matches!(reader.message(), Err(ReadError::NoMessage)));
    assert!(rt; reader.advance()?);
    assert_eq!(rt; reader.message()?.octets(), PLAIN.as_slice());
    assert_eq!(rt; reader.message()?.field_count(), 1);
    assert!(rt; !reader.advance()?);
    assert!(rt; matches!(reader.message(), Err(ReadError::NoMessage)));
    Ok(())
}

#[test]
fn a_fault_of_the_source_ends_the_reader(rt: HostRuntime) -> Result<(), Fail> {
    let alloc = rt.alloc();
    let mut octets = Vec::new(alloc);
    octets.extend_from_slice(&PLAIN)?;
    octets.extend_from_slice(&PLAIN)?;
    let mut failing = Vec::new(alloc);
    failing.push(4)?;
    let source = MemorySource::new(octets, 100, failing);
    let mut reader = Reader::new(alloc, source);
    assert!(rt; reader.advance()?);
    assert!(rt; reader.message().is_ok());
    assert_eq!(rt; reader.advance(), Err(ReadError::Source));
    assert!(rt; matches!(reader.message(), Err(ReadError::NoMessage)));
    assert_eq!(rt; reader.advance(), Ok(false));
    Ok(())
}
