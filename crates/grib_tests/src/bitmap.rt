//! Expected masks are those of a worked message; runs and octets are from Python, which joins the digits
//! of runs.

use crate::given::section;
use grib_base::{ReadFault, Reason};
use grib_bitmap::{Mask, ones, read_mask, write_mask};
use grib_bits::BitWriter;
use std::alloc::Global;
use std::process::Abort;
use std::test::Fail;

/// Reads the octets as a Section 6 that begins at octet 165, for which it is seen first that they state
/// themselves.
fn read(
    rt: &impl Abort,
    alloc: Global,
    octets: &[u8],
    points: u32,
    values: u32,
    earlier: Option<&Mask>,
) -> Result<Mask, ReadFault> {
    read_mask(alloc, &section(rt, 6, 165, octets), points, values, earlier)
}

/// The mask that was read.
fn accepted(rt: &impl Abort, read: Result<Mask, ReadFault>) -> Mask {
    match read {
        Ok(mask) => mask,
        Err(_) => panic!(rt; "the section is refused"),
    }
}

/// The octet, the reason and the detail of a refusal.
fn refused(rt: &impl Abort, read: Result<Mask, ReadFault>) -> (u64, Reason, u64) {
    match read {
        Err(ReadFault::Refused(fault)) => (fault.octet, fault.reason, fault.detail),
        _ => panic!(rt; "no refusal"),
    }
}

#[test]
fn masks_of_a_message(rt: HostRuntime) {
    let first = accepted(
        &rt,
        read(&rt, rt.alloc(), &[0, 0, 0, 7, 6, 0, 0xb0], 4, 3, None),
    );
    let again = accepted(
        &rt,
        read(&rt, rt.alloc(), &[0, 0, 0, 6, 6, 254], 4, 3, Some(&first)),
    );
    for mask in [&first, &again] {
        assert_eq!(rt; mask.len(), 4);
        assert!(rt; mask.get(0) && !mask.get(1) && mask.get(2) && mask.get(3));
    }
    let all = accepted(
        &rt,
        read(&rt, rt.alloc(), &[0, 0, 0, 6, 6, 255], 4, 4, None),
    );
    assert_eq!(rt; all.len(), 4);
    assert_eq!(rt; ones(&all), 4);
}

/// Runs of 5, 70, 1, 64, 3, 1, 2 and 47 points, left out and present in turn. Ones follow the last.
const RUNS: [u8; 31] = [
    0, 0, 0, 31, 6, 0, 0x07, 0xff, 0xff, 0xff, 0xff, 0xff, 0xff, 0xff, 0xff, 0xef, 0xff, 0xff,
    0xff, 0xff, 0xff, 0xff, 0xff, 0xf1, 0x3f, 0xff, 0xff, 0xff, 0xff, 0xff, 0xff,
];

/// The octets that a mask gives.
fn written(rt: &impl Abort, alloc: Global, mask: &Mask) -> Result<Vec<u8>, Fail> {
    let mut out = BitWriter::new(alloc);
    out.reserve(u64::from(mask.len()).next_multiple_of(8))?;
    write_mask(mask, &mut out);
    Ok(out.into_octets())
}

#[test]
fn masks_are_padded_with_zeros(rt: HostRuntime) -> Result<(), Fail> {
    let twelve = Mask::all(rt.alloc(), 12)?;
    assert_eq!(rt;
        written(&rt, rt.alloc(), &twelve)?.as_slice(),
        [0xff, 0xf0].as_slice()
    );
    let mask = accepted(&rt, read(&rt, rt.alloc(), &RUNS, 193, 182, None));
    let octets = written(&rt, rt.alloc(), &mask)?;
    assert_eq!(rt; octets.len(), 25);
    assert_eq!(rt; &octets[..24], &RUNS[6..30]);
    assert_eq!(rt; octets[24], 0x80);
    Ok(())
}
