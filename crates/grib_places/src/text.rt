//! Coordinates as text.

ghost use Rattle.std.specs.Prelude.{◌≡◌, ◌++◌, OnOk, OnErr};
ghost use Rattle.grib_places.specs.Degrees.{degrees_text, six_places};

use grib_decimal::{DecimalFault, DecimalScale};
use grib_dyadic::Dyadic;
use std::alloc::AllocError;

/// How coordinates in 10^-6 degree are printed: in degrees, with six decimals.
#[derive(Debug, Drop)]
pub struct DegreesText {
    scale: DecimalScale,
    ghost scale_is: { scale ≡ six_places },
}

impl DegreesText {
    /// There is one way.
    pub fn new() -> DegreesText {
        let zero = Dyadic::from_ibm(0);
        DegreesText {
            scale: DecimalScale::of(&zero, 0, 6, 6),
        }
    }

    /// Appends so many 10^-6 degree. Where there is no memory it appends nothing.
    #[inline]
    pub fn append(&self, text: &mut Vec<u8>, micro: i64) -> Result<(), AllocError>
        ensures appended { OnOk result (text.new.items ≡ text.old.items ++ degrees_text micro) }
        ensures unchanged { OnErr result (text.new.items ≡ text.old.items) }
    {
        match self.scale.append(text, micro) {
            Ok(()) => Ok(()),
            Err(DecimalFault::Memory) => Err(AllocError),
            Err(DecimalFault::Range) => unreachable!(),
        }
    }
}
