//! The line of a reference value.

ghost use Rattle.std.specs.Prelude.{◌≡◌, IfOk};
ghost use Rattle.std.specs.Fmt.{sign_text};
ghost use Rattle.grib_bits.specs.Bits.{bits_of, signed};
ghost use Rattle.grib_text.specs.Lines as lines;

use grib_bits::signed_of;
use grib_dyadic::Dyadic;
use std::alloc::{AllocError, Global};

/// The line of a reference value, and of the binary and the decimal scale factor, which are passed as
/// the two octets that hold them: a sign and a magnitude (WMO-No. 306, Volume I.2, FM 92 GRIB edition
/// 2, Section 5, octets 16-19). The only error is that there is no memory.
pub fn reference_line(
    alloc: Global,
    reference: &Dyadic,
    e: u16,
    d: u16,
) -> Result<Vec<u8>, AllocError>
    ensures { IfOk result (λ line. line.items
        ≡ lines.reference_line reference.now (signed (bits_of 16 e)) (signed (bits_of 16 d))) }
{
    let negative = reference.negative();
    let sign = sign_of(negative);
    let mantissa = reference.mantissa();
    let exponent = reference.exponent();
    let binary = signed_of(u64::from(e), 16);
    let decimal = signed_of(u64::from(d), 16);
    let line = format!(in alloc;
        "reference {sign}{mantissa}*2^{exponent} binary {binary} decimal {decimal}\n"
    )?;
    Ok(line.into_bytes())
}

/// What stands before the magnitude of a number.
fn sign_of(negative: bool) -> &'static str
    ensures { result.now ≡ sign_text negative }
{
    if negative { "-" } else { "" }
}
