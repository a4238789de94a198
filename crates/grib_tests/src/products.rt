//! A Section 4 in which the octets of a template are numbered, so that a number says where it stands.

use crate::given::{put, put_length, section};
use grib_base::ReadFault;
use grib2_products::{Instant, Product, ProductSection, Spec, read_product};
use std::alloc::{AllocError, Global};
use std::process::Abort;
use std::test::Fail;

/// What stands in octets 10 to 34 of a numbered section.
const INSTANT: Instant = Instant {
    category: 10,
    number: 11,
    process: 12,
    background: 13,
    generator: 14,
    cutoff_hours: 0x0f10,
    cutoff_minutes: 17,
    unit: 18,
    time: 0x1314_1516,
    surface1: 23,
    scale1: 24,
    value1: 0x191a_1b1c,
    surface2: 29,
    scale2: 30,
    value2: 0x1f20_2122,
};

/// A section of this length in which octet n from 10 on is n.
fn numbered(alloc: Global, template: u8, length: u8) -> Result<Vec<u8>, AllocError> {
    let mut octets = Vec::new(alloc);
    for octet in 0..length {
        octets.push(octet.wrapping_add(1))?;
    }
    put(&mut octets, 0, &[0, 0, 0, length, 4, 0, 0, 0, template]);
    Ok(octets)
}

/// Reads a section that begins at octet 110 of its message, and sees first that it is one.
fn read(rt: &impl Abort, alloc: Global, octets: &[u8]) -> Result<ProductSection, ReadFault> {
    let section = section(rt, 4, 110, octets);
    read_product(alloc, &section)
}

/// Two time ranges: the mean over 24 hours of hourly fields, and the greatest over 6 days.
const RANGES: [u8; 24] = [
    0, 2, 1, 0, 0, 0, 24, 1, 0, 0, 0, 1, 2, 1, 2, 0, 0, 0, 6, 0xff, 0, 0, 0, 0,
];

/// Two coordinate values, 100 and 0.5 in binary32.
const COORDINATES: [u8; 8] = [0x42, 0xc8, 0, 0, 0x3f, 0, 0, 0];

#[test]
fn an_interval_is_read(rt: HostRuntime) -> Result<(), Fail> {
    let mut octets = numbered(rt.alloc(), 11, 49)?;
    put(&mut octets, 44, &[2]);
    put(&mut octets, 6, &[2]);
    octets.extend_from_slice(&RANGES)?;
    octets.extend_from_slice(&COORDINATES)?;
    put_length(&rt, &mut octets);
    let value = read(&rt, rt.alloc(), octets.as_slice())?;
    assert_eq!(rt;
        value.coordinates.as_slice(),
        [0x42c8_0000, 0x3f00_0000].as_slice()
    );
    let Product::EnsembleInterval(instant, ensemble, interval) = &value.product else {
        return Err(Fail::from("no template 4.11"));
    };
    assert_eq!(rt; *instant, INSTANT);
    assert_eq!(rt;
        (ensemble.kind, ensemble.perturbation, ensemble.size),
        (35, 36, 37)
    );
    assert_eq!(rt;
        (interval.year, interval.month, interval.day),
        (0x2627, 40, 41)
    );
    assert_eq!(rt;
        (interval.hour, interval.minute, interval.second),
        (42, 43, 44)
    );
    assert_eq!(rt; (interval.n, interval.missing), (2, 0x2e2f_3031));
    let mean = Spec {
        process: 0,
        increment_type: 2,
        unit: 1,
        length: 24,
        increment_unit: 1,
        increment: 1,
    };
    let greatest = Spec {
        process: 2,
        increment_type: 1,
        unit: 2,
        length: 6,
        increment_unit: 255,
        increment: 0,
    };
    assert_eq!(rt; interval.specs.as_slice(), [mean, greatest].as_slice());
    Ok(())
}
