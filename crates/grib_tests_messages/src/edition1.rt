//! Which messages are accepted, and why others are refused. The octets and the refusals are worked by hand
//! from the tables of the manual and of docs/PROFILE.md.

ghost use Rattle.std.specs.Prelude.{◌≤◌};

use grib_base::{Fault, ReadFault, Reason};
use grib_bits::u8_at;
pub(crate) use grib_samples::{FIRST_EDITION as PLAIN, MASKED, REDUCED};
use grib1_sections::{Message1, read_message1};
use std::alloc::Global;
use std::test::Fail;

mod contents;

/// Reads a message; no memory stands for octets that do not begin one of edition 1.
pub(crate) fn read(alloc: Global, octets: &[u8]) -> Result<Message1<'_>, ReadFault> {
    if octets.len() < 8 || !octets.starts_with(b"GRIB") || u8_at(octets, 8) != 1 {
        return Err(ReadFault::Memory);
    }
    read_message1(alloc, octets)
}

/// The number of octets of a section, 0 for none.
fn octets_in(message: &Message1<'_>, number: u8) -> usize
    requires low { 1 ≤ number }
    requires high { number ≤ 4 }
{
    message.section(number).map_or(0, |octets| octets.len())
}

/// The length, the number of points, of those present, and the octets of Sections 1 to 4, 0 for none; all
/// 0 where the message is refused.
fn told(alloc: Global, octets: &[u8]) -> (u64, u32, u32, [usize; 4]) {
    let Ok(message) = read(alloc, octets) else {
        return (0, 0, 0, [0; 4]);
    };
    let sections = [
        octets_in(&message, 1),
        octets_in(&message, 2),
        octets_in(&message, 3),
        octets_in(&message, 4),
    ];
    (
        message.length(),
        message.points(),
        message.values(),
        sections,
    )
}

#[test]
fn messages_are_accepted(rt: HostRuntime) -> Result<(), Fail> {
    let alloc = rt.alloc();
    assert_eq!(rt; told(alloc, PLAIN), (88, 4, 4, [28, 32, 0, 16]));
    assert_eq!(rt; told(alloc, MASKED), (95, 4, 3, [28, 32, 7, 16]));
    assert_eq!(rt; told(alloc, REDUCED), (96, 4, 4, [28, 40, 0, 16]));
    let mut two = PLAIN.to_vec(alloc)?;
    two.extend_from_slice(MASKED)?;
    assert_eq!(rt; told(alloc, two.as_slice()), (88, 4, 4, [28, 32, 0, 16]));
    Ok(())
}
