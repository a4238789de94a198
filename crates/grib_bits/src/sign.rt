//! Numbers with a sign bit before their magnitude.

ghost use Rattle.std.specs.Prelude.{◌≡◌, ◌↔◌, ◌-◌, ◌^◌, ◌<◌, ◌≤◌, pos, unsigned_abs, Some, IsNone, IfSome};
ghost use Rattle.grib_bits.specs.Bits.{bits_of, signed};

/// The number that a field of `width` bits holds, if its bits make `raw` and its first bit is the
/// sign: 1 makes the rest negative (WMO-No. 306, Volume I.2, FM 92 GRIB, regulation 92.1.5). A set
/// sign before a magnitude of 0 is 0.
#[inline]
pub fn signed_of(raw: u64, width: u32) -> i64
    requires nonempty { 1 ≤ width }
    requires word { width ≤ 64 }
    requires fits { raw < 2 ^ width }
    ensures { result ≡ signed (bits_of width raw) }
{
    let sign = 1u64 << (width - 1);
    if raw < sign {
        raw as i64
    } else {
        -((raw - sign) as i64)
    }
}

/// What the bits of a field of `width` bits make that holds `value` with its sign in the first bit
/// (WMO-No. 306, Volume I.2, FM 92 GRIB, regulation 92.1.5), or nothing where the magnitude needs
/// more bits than are left. The sign of 0 is not set.
#[inline]
pub fn raw_of(value: i64, width: u32) -> Option<u64>
    requires nonempty { 1 ≤ width }
    requires word { width ≤ 64 }

    ensures too_large { IsNone result ↔ (2 ^ (width - 1) ≤ unsigned_abs value) }
    ensures fits { IfSome result (λ raw. raw < 2 ^ width) }
    ensures value { IfSome result (λ raw. signed (bits_of width raw) ≡ value) }
    ensures zero { value ≡ pos 0 → result ≡ Some 0 }
{
    let sign = 1u64 << (width - 1);
    let magnitude = value.unsigned_abs();
    if magnitude >= sign {
        return None;
    }
    if value < 0 {
        Some(sign + magnitude)
    } else {
        Some(magnitude)
    }
}
