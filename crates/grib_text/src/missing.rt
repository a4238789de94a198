//! Numbers of a product that may be missing.

ghost use Rattle.std.specs.Prelude.{◌≡◌, Some};
ghost use Rattle.grib_text.specs.Words.{text_or_missing, number_or_none, signed_or_none};

use grib_bits::signed_of;
use std::fmt;

/// A number, or nothing where all its bits are set (WMO-No. 306, Volume I.2, FM 92 GRIB, regulation
/// 92.1.4).
#[derive(Clone, Copy, Debug)]
pub(crate) struct OrMissing(Option<i64>);

impl OrMissing {
    /// The number of an octet.
    pub(crate) fn octet(octet: u8) -> Self
        ensures { result.0 ≡ number_or_none 8 octet }
    {
        OrMissing((octet != u8::MAX).then_some(i64::from(octet)))
    }

    /// The number with sign of an octet.
    pub(crate) fn signed_octet(octet: u8) -> Self
        ensures { result.0 ≡ signed_or_none 8 octet }
    {
        OrMissing((octet != u8::MAX).then_some(signed_of(u64::from(octet), 8)))
    }

    /// The number of four octets.
    pub(crate) fn word(word: u32) -> Self
        ensures { result.0 ≡ number_or_none 32 word }
    {
        OrMissing((word != u32::MAX).then_some(i64::from(word)))
    }
}

impl fmt::Display for OrMissing {
    ghost output = { λ n. Some (text_or_missing n.0) };

    fn fmt<W: fmt::Write>(&self, f: &mut fmt::Formatter<W>) -> fmt::Result {
        match self.0 {
            Some(number) => write!(f, "{number}"),
            None => f.write_str("missing"),
        }
    }
}
