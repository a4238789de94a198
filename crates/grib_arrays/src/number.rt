//! Exact values as numbers of the machine.

ghost use Rattle.std.specs.Prelude.{◌≡◌, ◌≤◌, ◌<◌, ◌^◌, nat_abs, IfOk};
ghost use Rattle.grib_bits.specs.Bits.{bits_of, signed};
ghost use Rattle.grib_dyadic.specs.Value.{value_of};
ghost use Rattle.grib_arrays.specs.Numbers as definitions;

use crate::scale::ArrayScale;
use grib_dyadic::Dyadic;
use grib_nearest::Format;
use std::alloc::{AllocError, Global};

/// The number of IEEE 754 binary64 that is nearest to the exact value of a point, ties to even, rounded once: an infinity
/// beyond the greatest numbers. It takes the reference value R, the two octets of the binary scale factor E and of the decimal
/// scale factor D, each a sign and a magnitude, and the scaled number X (WMO-No. 306, Volume I.2, FM 92 GRIB edition 2,
/// Section 5, octets 12-19, and Section 7).
///
/// # Errors
///
/// There is no memory. A value of few digits takes none.
pub fn nearest_f64(
    alloc: Global,
    reference: &Dyadic,
    e: u16,
    d: u16,
    x: i64,
) -> Result<f64, AllocError>
    requires mantissa { nat_abs reference.now.mantissa < 2 ^ 24 }
    requires exponent { nat_abs reference.now.exponent ≤ 2 ^ 15 }
    ensures { IfOk result (λ number. number
        ≡ definitions.nearest_f64 (value_of reference.now (signed (bits_of 16 e)) (signed (bits_of 16 d)) x)) }
{
    let scale = ArrayScale::of(Format::Binary64, reference, e, d);
    let word = scale.value_word(alloc, x)?;
    Ok(f64::from_bits(word))
}
