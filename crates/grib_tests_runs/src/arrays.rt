//! `values` where a write fails.

use crate::in_memory::{CALM, Failing, run_over};
use grib_engine::Outcome;
use grib_samples::{PLAIN, between};
use std::alloc::{AllocError, Global};
use std::test::Fail;

// The values of the numbers 0, 1, 2 and 255: -11.8625, -11.85, -11.8375 and -8.675.
const FOUR: &[u8] = b"\x9a\x99\x99\x99\x99\xb9\x27\xc0\
\x33\x33\x33\x33\x33\xb3\x27\xc0\
\xcd\xcc\xcc\xcc\xcc\xac\x27\xc0\
\x9a\x99\x99\x99\x99\x59\x21\xc0";

// An array with this name of a type and this shape.
fn array(alloc: Global, name: &str, shape: &str, values: &[u8]) -> Result<Vec<u8>, AllocError> {
    let mut octets = b"\x93NUMPY\x01\0\x76\0{'descr': '".to_vec(alloc)?;
    octets.extend_from_slice(name.as_bytes())?;
    octets.extend_from_slice(b"', 'fortran_order': False, 'shape': ")?;
    octets.extend_from_slice(shape.as_bytes())?;
    octets.extend_from_slice(b", }")?;
    octets.resize(127, b' ')?;
    octets.push(b'\n')?;
    octets.extend_from_slice(values)?;
    Ok(octets)
}

#[test]
fn each_write_of_an_array_may_fail(rt: HostRuntime) -> Result<(), Fail> {
    let whole = array(rt.alloc(), "<f8", "(2, 2)", FOUR)?;
    for (output, from) in [(1, 0), (2, 50), (3, 100), (4, 150)] {
        let failing = Failing { output, ..CALM };
        let ran = run_over(rt.alloc(), "values", &PLAIN, 50, failing)?;
        let front = between(whole.as_slice(), 0, from);
        assert!(rt; ran.gave(Outcome::WriteFault, front, ""));
    }
    Ok(())
}

// The two arrays of a field of this shape.
fn coordinates(
    alloc: Global,
    shape: &str,
    latitudes: &[u8],
    longitudes: &[u8],
) -> Result<Vec<u8>, AllocError> {
    let mut octets = array(alloc, "<f8", shape, latitudes)?;
    octets.extend_from_slice(array(alloc, "<f8", shape, longitudes)?.as_slice())?;
    Ok(octets)
}
