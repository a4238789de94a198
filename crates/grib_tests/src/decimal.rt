//! Expected texts are of Python's fractions, rounded half to even once, and those of the message M1 of
//! docs/WORKED.md with three places.

use grib_decimal::{DecimalFault, decimal_text};
use grib_dyadic::Dyadic;
use std::test::Fail;

// The word of R, the octets of E and D, X and the places, with the text, or none where it is refused.
const TEXTS: [(u32, u16, u16, i64, u32, Option<&str>); 6] = [
    (0xc2ed4000, 0x8003, 0x0001, 0, 3, Some("-11.862")),
    (0xc2ed4000, 0x8003, 0x0001, 255, 3, Some("-8.675")),
    (0x00000000, 0x7fff, 0x0000, 1, 3, None),
    (0x00000000, 0x0000, 0x0004, -15, 3, Some("-0.002")),
    (0x43889333, 0x8005, 0x0000, 12345, 3, Some("658.931")),
    (0x47c5e680, 0x0000, 0x0000, 12345, 2, Some("113670.00")),
];

#[test]
fn values_are_rounded_once(rt: HostRuntime) -> Result<(), Fail> {
    for (word, e, d, x, places, expected) in TEXTS {
        let reference = Dyadic::from_ieee(word)?;
        assert!(rt; reference.mantissa() < 1 << 24);
        assert!(rt; x.unsigned_abs() <= 1 << 60 && places <= 18);
        let text = decimal_text(rt.alloc(), &reference, e, d, x, places);
        let is_expected = match (text, expected) {
            (Ok(text), Some(expected)) => text.as_slice() == expected.as_bytes(),
            (Err(fault), None) => fault == DecimalFault::Range,
            _ => false,
        };
        assert!(rt; is_expected, "{word} {e} {d} {x} {places}");
    }
    Ok(())
}
