//! Messages that the tests take, whole and in sections. Their octets are worked by hand from the tables of the
//! manual.
#![tactic(auto)]

use std::alloc::{AllocError, Global};

/// A message of edition 1: a grid of 2 by 2 points whose numbers are 0, 1, 2 and 255, in 8 bits each: 88
/// octets.
pub const FIRST_EDITION: &[u8] = b"GRIB\0\0\x58\x01\
\0\0\x1c\x02\x62\x01\xff\x80\x0b\x64\x01\xf4\x18\x01\x0f\x0c\0\x01\x06\0\0\0\0\0\x15\0\0\x01\
\0\0\x20\0\xff\0\0\x02\0\x02\0\xc3\x50\0\x27\x10\x80\0\xbf\x68\0\x2a\xf8\x03\xe8\x03\xe8\0\0\0\0\0\
\0\0\x10\x08\x80\x03\xc2\x76\xa0\0\x08\0\x01\x02\xff\0\
7777";

/// A message of edition 1 with a bitmap that leaves out the second of its four points: 95 octets.
pub const MASKED: &[u8] = b"GRIB\0\0\x5f\x01\
\0\0\x1c\x02\x62\x01\xff\xc0\x0b\x64\x01\xf4\x18\x01\x0f\x0c\0\x01\x06\0\0\0\0\0\x15\0\x80\x02\
\0\0\x20\0\xff\0\0\x02\0\x02\0\xc3\x50\0\x27\x10\x80\0\xbf\x68\0\x2a\xf8\x03\xe8\x03\xe8\0\0\0\0\0\
\0\0\x07\x04\0\0\xbf\
\0\0\x10\x08\0\x01\x41\x10\0\0\x08\x05\x06\x07\x09\x09\
7777";

/// A message of edition 1 on a reduced Gaussian grid with rows of one and of three points, with one vertical
/// coordinate: 96 octets.
pub const REDUCED: &[u8] = b"GRIB\0\0\x60\x01\
\0\0\x1c\x02\x62\x01\xff\x80\x0b\x64\x01\xf4\x18\x01\x0f\x0c\0\x01\x06\0\0\0\0\0\x15\0\0\x01\
\0\0\x28\x01\x21\x04\xff\xff\0\x02\0\xc3\x50\0\x27\x10\0\0\xbf\x68\0\x2a\xf8\xff\xff\0\x01\0\0\0\0\0\
\x41\x10\0\0\0\x01\0\x03\
\0\0\x10\x08\x80\x03\xc2\x76\xa0\0\x08\0\x01\x02\xff\0\
7777";

/// A parameter table with the parameter of the messages of edition 1: temperature.
pub const TABLE: &[u8] = b"98,2,11,0,0,0,2,0\n";

/// What the plain message of edition 1 becomes in edition 2.
pub const MIGRATED: &[u8] = b"GRIB\0\0\0\x02\0\0\0\0\0\0\0\xb7\
\0\0\0\x15\x01\0\x62\0\0\x02\0\x01\x07\xe8\x01\x0f\x0c\0\0\xff\xff\
\0\0\0\x48\x03\0\0\0\0\x04\0\0\0\0\0\xff\xff\xff\xff\xff\xff\xff\xff\xff\xff\xff\xff\xff\xff\xff\
\0\0\0\x02\0\0\0\x02\0\0\0\0\xff\xff\xff\xff\x02\xfa\xf0\x80\0\x98\x96\x80\x30\x02\xeb\xae\x40\
\0\xa7\xd8\xc0\0\x0f\x42\x40\0\x0f\x42\x40\0\
\0\0\0\x22\x04\0\0\0\0\0\0\x02\xff\x01\xff\xff\xff\x01\0\0\0\x06\x64\0\0\0\xc3\x50\
\xff\xff\xff\xff\xff\xff\
\0\0\0\x15\x05\0\0\0\x04\0\0\xc2\xed\x40\0\x80\x03\0\x01\x08\0\
\0\0\0\x06\x06\xff\
\0\0\0\x09\x07\0\x01\x02\xff\
7777";

/// A message of edition 1 of which everything is lost that can be: its parameter, its level, its unit, its time range, its
/// day, its count, octets for local use, a flag, La1, its one vertical coordinate and its reference value.
pub const ALL_LOST: &[u8] = b"GRIB\0\0\x78\x01\
\0\0\x34\x02\x62\x01\xff\x80\x0c\x14\x01\xf4\x18\x01\x20\x0c\0\x03\x06\0\x02\0\x02\0\x15\0\0\x01\
\0\0\0\0\0\0\0\0\0\0\0\0abcdefghijkl\
\0\0\x28\x01\x21\x04\xff\xff\0\x02\x20\xc4\x9c\0\x27\x10\x10\0\xbf\x68\0\x2a\xf8\xff\xff\0\x01\0\0\0\0\0\
\x61\x10\0\0\0\x01\0\x03\
\0\0\x10\x08\x80\x03\x61\x10\0\0\x08\0\x01\x02\xff\0\
7777";

/// A message of one field of 2 by 2 points, whose numbers are 0, 1, 2 and 255: 183 octets.
pub const PLAIN: [u8; 183] = [
    0x47, 0x52, 0x49, 0x42, 0x00, 0x00, 0x00, 0x02, 0x00, 0x00, 0x00, 0x00, 0x00, 0x00, 0x00, 0xB7,
    0x00, 0x00, 0x00, 0x15, 0x01, 0x00, 0x62, 0x00, 0x00, 0x02, 0x00, 0x01, 0x07, 0xE8, 0x01, 0x0F,
    0x0C, 0x00, 0x00, 0x00, 0x01, 0x00, 0x00, 0x00, 0x48, 0x03, 0x00, 0x00, 0x00, 0x00, 0x04, 0x00,
    0x00, 0x00, 0x00, 0x06, 0xFF, 0xFF, 0xFF, 0xFF, 0xFF, 0xFF, 0xFF, 0xFF, 0xFF, 0xFF, 0xFF, 0xFF,
    0xFF, 0xFF, 0xFF, 0x00, 0x00, 0x00, 0x02, 0x00, 0x00, 0x00, 0x02, 0x00, 0x00, 0x00, 0x00, 0xFF,
    0xFF, 0xFF, 0xFF, 0x02, 0xFA, 0xF0, 0x80, 0x00, 0x98, 0x96, 0x80, 0x30, 0x02, 0xEB, 0xAE, 0x40,
    0x00, 0xA7, 0xD8, 0xC0, 0x00, 0x0F, 0x42, 0x40, 0x00, 0x0F, 0x42, 0x40, 0x00, 0x00, 0x00, 0x00,
    0x22, 0x04, 0x00, 0x00, 0x00, 0x00, 0x00, 0x00, 0x02, 0xFF, 0x01, 0x00, 0x00, 0x00, 0x01, 0x00,
    0x00, 0x00, 0x06, 0x67, 0x00, 0x00, 0x00, 0x00, 0x02, 0xFF, 0xFF, 0xFF, 0xFF, 0xFF, 0xFF, 0x00,
    0x00, 0x00, 0x15, 0x05, 0x00, 0x00, 0x00, 0x04, 0x00, 0x00, 0xC2, 0xED, 0x40, 0x00, 0x80, 0x03,
    0x00, 0x01, 0x08, 0x00, 0x00, 0x00, 0x00, 0x06, 0x06, 0xFF, 0x00, 0x00, 0x00, 0x09, 0x07, 0x00,
    0x01, 0x02, 0xFF, 0x37, 0x37, 0x37, 0x37,
];

/// A message of two fields, the second with the bitmap of the first: 252 octets.
pub const TWO_FIELDS: [u8; 252] = [
    0x47, 0x52, 0x49, 0x42, 0x00, 0x00, 0x00, 0x02, 0x00, 0x00, 0x00, 0x00, 0x00, 0x00, 0x00, 0xFC,
    0x00, 0x00, 0x00, 0x15, 0x01, 0x00, 0x62, 0x00, 0x00, 0x02, 0x00, 0x01, 0x07, 0xE8, 0x01, 0x0F,
    0x0C, 0x00, 0x00, 0x00, 0x01, 0x00, 0x00, 0x00, 0x48, 0x03, 0x00, 0x00, 0x00, 0x00, 0x04, 0x00,
    0x00, 0x00, 0x00, 0x06, 0xFF, 0xFF, 0xFF, 0xFF, 0xFF, 0xFF, 0xFF, 0xFF, 0xFF, 0xFF, 0xFF, 0xFF,
    0xFF, 0xFF, 0xFF, 0x00, 0x00, 0x00, 0x02, 0x00, 0x00, 0x00, 0x02, 0x00, 0x00, 0x00, 0x00, 0xFF,
    0xFF, 0xFF, 0xFF, 0x02, 0xFA, 0xF0, 0x80, 0x00, 0x98, 0x96, 0x80, 0x30, 0x02, 0xEB, 0xAE, 0x40,
    0x00, 0xA7, 0xD8, 0xC0, 0x00, 0x0F, 0x42, 0x40, 0x00, 0x0F, 0x42, 0x40, 0x00, 0x00, 0x00, 0x00,
    0x22, 0x04, 0x00, 0x00, 0x00, 0x00, 0x00, 0x00, 0x02, 0xFF, 0x01, 0x00, 0x00, 0x00, 0x01, 0x00,
    0x00, 0x00, 0x06, 0x67, 0x00, 0x00, 0x00, 0x00, 0x02, 0xFF, 0xFF, 0xFF, 0xFF, 0xFF, 0xFF, 0x00,
    0x00, 0x00, 0x15, 0x05, 0x00, 0x00, 0x00, 0x03, 0x00, 0x00, 0xC2, 0xED, 0x40, 0x00, 0x80, 0x03,
    0x00, 0x01, 0x08, 0x00, 0x00, 0x00, 0x00, 0x07, 0x06, 0x00, 0xB0, 0x00, 0x00, 0x00, 0x08, 0x07,
    0x00, 0x01, 0x02, 0x00, 0x00, 0x00, 0x22, 0x04, 0x00, 0x00, 0x00, 0x00, 0x00, 0x00, 0x02, 0xFF,
    0x01, 0x00, 0x00, 0x00, 0x01, 0x00, 0x00, 0x00, 0x06, 0x67, 0x00, 0x00, 0x00, 0x00, 0x02, 0xFF,
    0xFF, 0xFF, 0xFF, 0xFF, 0xFF, 0x00, 0x00, 0x00, 0x15, 0x05, 0x00, 0x00, 0x00, 0x03, 0x00, 0x00,
    0xC2, 0xED, 0x40, 0x00, 0x80, 0x03, 0x00, 0x01, 0x08, 0x00, 0x00, 0x00, 0x00, 0x06, 0x06, 0xFE,
    0x00, 0x00, 0x00, 0x08, 0x07, 0x03, 0x04, 0x05, 0x37, 0x37, 0x37, 0x37,
];

/// A Section 1.
pub const IDENTIFICATION: &[u8] =
    b"\0\0\0\x15\x01\0\x62\0\0\x02\0\x01\x07\xe8\x01\x0f\x0c\0\0\0\x01";

/// A grid of 2 by 2 points of latitude and longitude.
pub const GRID: &[u8] = b"\0\0\0\x48\x03\0\0\0\0\x04\0\0\0\0\x06\
\xff\xff\xff\xff\xff\xff\xff\xff\xff\xff\xff\xff\xff\xff\xff\0\0\0\x02\0\0\0\x02\
\0\0\0\0\xff\xff\xff\xff\x02\xfa\xf0\x80\0\x98\x96\x80\x30\x02\xeb\xae\x40\0\xa7\xd8\xc0\
\0\x0f\x42\x40\0\x0f\x42\x40\0";

/// A Section 4 of template 4.0.
pub const PRODUCT: &[u8] =
    b"\0\0\0\x22\x04\0\0\0\0\0\0\x02\xff\x01\0\0\0\x01\0\0\0\x06\x67\0\0\0\0\x02\
\xff\xff\xff\xff\xff\xff";

/// Four numbers of eight bits each.
pub const FOUR_NUMBERS: &[u8] = b"\0\0\0\x15\x05\0\0\0\x04\0\0\xc2\xed\x40\0\x80\x03\0\x01\x08\0";

/// Three numbers of eight bits each.
pub const THREE_NUMBERS: &[u8] = b"\0\0\0\x15\x05\0\0\0\x03\0\0\xc2\xed\x40\0\x80\x03\0\x01\x08\0";

/// All points are present.
pub const NO_BITMAP: &[u8] = b"\0\0\0\x06\x06\xff";

/// The second of four points is left out.
pub const OWN_BITMAP: &[u8] = b"\0\0\0\x07\x06\0\xb0";

/// The bitmap is that of the field before.
pub const SAME_BITMAP: &[u8] = b"\0\0\0\x06\x06\xfe";

/// The numbers 0, 1, 2 and 255.
pub const FOUR_VALUES: &[u8] = b"\0\0\0\x09\x07\0\x01\x02\xff";

/// The numbers 0, 1 and 2.
pub const FIRST_VALUES: &[u8] = b"\0\0\0\x08\x07\0\x01\x02";

/// The numbers 3, 4 and 5.
pub const SECOND_VALUES: &[u8] = b"\0\0\0\x08\x07\x03\x04\x05";

/// Four points of a general unstructured grid, template 3.101, which the stated profile does not have: the shape of the
/// earth, the grid's number, its reference and its UUID.
pub const UNSTRUCTURED_GRID: &[u8] = b"\0\0\0\x23\x03\0\0\0\0\x04\0\0\0\x65\x06\0\0\x1a\x01\
\xa2\x7b\x8d\xe6\x18\xc4\x11\xe4\x82\x0a\xb5\xb0\x98\xc6\xa5\xc0";

/// A Section 4 of template 4.15, which begins as 4.0: statistics over an area at a point in time.
pub const AREA_PRODUCT: &[u8] =
    b"\0\0\0\x25\x04\0\0\0\x0f\0\0\x02\xff\x01\0\0\0\x01\0\0\0\x06\x67\0\0\0\0\x02\
\xff\xff\xff\xff\xff\xff\0\0\x01";

/// A Section 4 of template 4.40, which has a constituent in octets 12 and 13: the mass mixing ratio of carbon monoxide.
pub const CHEMICAL_PRODUCT: &[u8] =
    b"\0\0\0\x24\x04\0\0\0\x28\x14\x02\0\x04\x02\xff\x01\0\0\0\x01\0\0\0\x06\
\x67\0\0\0\0\x02\xff\xff\xff\xff\xff\xff";

/// A Section 4 of template 4.254, which has a category, a number, and how many characters there are.
pub const CHARACTER_PRODUCT: &[u8] = b"\0\0\0\x0f\x04\0\0\0\xfe\x03\x05\0\0\0\x01";

/// Four numbers in binary32, template 5.4.
pub const FOUR_BINARY32: &[u8] = b"\0\0\0\x0c\x05\0\0\0\x04\0\x04\x01";

/// The numbers 1, 2, 3 and 4 in binary32.
pub const BINARY32_VALUES: &[u8] = b"\0\0\0\x15\x07\x3f\x80\0\0\x40\0\0\0\x40\x40\0\0\x40\x80\0\0";

/// The octets of a message with this total length and these sections.
pub fn message_of(alloc: Global, total: u64, sections: &[&[u8]]) -> Result<Vec<u8>, AllocError> {
    let mut octets = b"GRIB\0\0\0\x02".to_vec(alloc)?;
    octets.extend_from_slice(&total.to_be_bytes())?;
    for section in sections {
        octets.extend_from_slice(section)?;
    }
    octets.extend_from_slice(b"7777")?;
    Ok(octets)
}

/// These octets with others at some places, counted from 1.
pub fn edited(alloc: Global, octets: &[u8], edits: &[(usize, u8)]) -> Result<Vec<u8>, AllocError> {
    let mut copy = octets.to_vec(alloc)?;
    for (place, octet) in edits {
        if *place >= 1 && *place <= copy.len() {
            copy[*place - 1] = *octet;
        }
    }
    Ok(copy)
}

/// The octets behind the first `from` of these, up to the first `to`; none where they have fewer.
pub fn between(octets: &[u8], from: usize, to: usize) -> &[u8] {
    octets.get(from..to).unwrap_or(&[])
}

/// Puts octets in place of those from a place on, counted from 1, as far as there are any.
pub fn put(octets: &mut [u8], place: usize, new: &[u8]) {
    let before = place.saturating_sub(1);
    for (k, octet) in new.iter().enumerate() {
        if let Some(there) = octets.get_mut(before.saturating_add(k)) {
            *there = *octet;
        }
    }
}
