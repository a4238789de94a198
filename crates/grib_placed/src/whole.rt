//! Whole numbers as text.

ghost use Rattle.std.specs.Prelude.{◌≡◌, ◌++◌, pos, OnOk};
ghost use Rattle.std.specs.Fmt.{signed_decimal};
ghost use Rattle.grib_dyadic.specs.Reference.{binary};
ghost use Rattle.grib_decimal.specs.Decimal.{scale as scale_of};

use grib_decimal::{DecimalFault, DecimalScale};
use grib_dyadic::Dyadic;
use std::alloc::AllocError;

/// How whole numbers are printed: as values with no scale factors and no places.
#[derive(Debug, Drop)]
pub(crate) struct WholeText {
    scale: DecimalScale,
    ghost scale_is: { scale ≡ scale_of (binary (pos 0) (pos 0)) (pos 0) (pos 0) 0 },
}

impl WholeText {
    /// There is one way.
    pub(crate) fn new() -> WholeText {
        let zero = Dyadic::from_ibm(0);
        WholeText {
            scale: DecimalScale::of(&zero, 0, 0, 0),
        }
    }

    /// Appends the number.
    #[inline]
    pub(crate) fn append(&self, text: &mut Vec<u8>, number: i64) -> Result<(), AllocError>
        ensures { OnOk result (text.new.items ≡ text.old.items ++ signed_decimal number) }
    {
        match self.scale.append(text, number) {
            Ok(()) => Ok(()),
            Err(DecimalFault::Memory) => Err(AllocError),
            Err(DecimalFault::Range) => unreachable!(),
        }
    }
}
