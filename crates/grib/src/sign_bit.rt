//! Numbers of sections that have a sign.

ghost use Rattle.std.specs.Prelude.{◌≡◌, ℤ, Option};
ghost use Rattle.grib_text.specs.Words.{signed_or_none};

use grib_bits::signed_of;

/// A number of a grid or a product whose first bit is its sign, where 1 makes the others negative, and which is missing where
/// all its bits are set (WMO-No. 306, Volume I.2, FM 92 GRIB, regulations 92.1.4 and 92.1.5): latitudes, longitudes, forecast
/// times and scale factors are such numbers.
///
/// ```
/// use grib::SignBit;
///
/// let la1 = grid.la1.signed(); // in 10^-6 degree
/// ```
pub trait SignBit {
    /// The number, none where it is missing.
    ghost number: { Self → Option ℤ };

    /// The number, `None` where it is missing.
    fn signed(self) -> Option<i64>
        ensures { result ≡ number self };
}

impl SignBit for u8 {
    ghost number = { λ raw. signed_or_none 8 raw };

    fn signed(self) -> Option<i64> {
        (self != u8::MAX).then_some(signed_of(u64::from(self), 8))
    }
}

impl SignBit for u32 {
    ghost number = { λ raw. signed_or_none 32 raw };

    fn signed(self) -> Option<i64> {
        (self != u32::MAX).then_some(signed_of(u64::from(self), 32))
    }
}
