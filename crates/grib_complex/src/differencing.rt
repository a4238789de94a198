//! Extra descriptors of spatial differencing, as they are written.

ghost use Rattle.std.specs.Prelude.{◌≡◌, ◌⊎◌, ℕ, ◌+◌, ◌-◌, ◌*◌, ◌^◌, ◌<◌, ◌≤◌, ◌++◌, ◌||◌, nat_abs, nat_lt, int_lt, pos};
ghost use Rattle.grib_bits.specs.Bits.{digit};
ghost use Rattle.grib_packing.specs.Misfits.{is_outside as is_outside_of};
ghost use Rattle.grib_packing.specs.Packed.{descriptor_fields, descriptor_size};
ghost use Rattle.grib_spatial.specs.Undoing.{read_with};

use crate::coding::is_outside;
use grib_bits::BitWriter;
use grib_spatial::Differences;

/// The greatest magnitude of a first value and of the minimum.
pub const MOST: u32 = (1 << 31) - 1;

/// Whether a first value or the minimum has no place.
pub fn are_out(differences: &Differences) -> bool
    ensures { result ≡ (is_outside_of (2 ^ 31 - 1) differences.now.first || is_outside_of (2 ^ 31 - 1) differences.now.second
        || nat_lt (2 ^ 31 - 1) (nat_abs differences.now.minimum)) }
{
    is_outside(differences.first, MOST)
        || is_outside(differences.second, MOST)
        || differences.minimum.unsigned_abs() > u64::from(MOST)
}

/// The octets of each extra descriptor: the least from 1 to 4 that hold the first values, whose top bit is
/// clear, and the minimum with its sign.
pub fn descriptor_octets(differences: &Differences) -> u8
    ensures is { (order : ℕ) → result ≡ descriptor_size (read_with order differences.now) }
    ensures some { 1 ≤ result }
    ensures few { result ≤ 4 }
{
    let first = differences.first.unsigned_abs();
    let second = differences.second.unsigned_abs();
    let most = first.max(second.max(differences.minimum.unsigned_abs()));
    if most < 1 << 7 {
        1
    } else if most < 1 << 15 {
        2
    } else if most < 1 << 23 {
        3
    } else {
        4
    }
}

/// Writes the first values, as many as the order, and the minimum with its sign, in this many octets each
/// (WMO-No. 306, Volume I.2, FM 92 GRIB edition 2, data template 7.3).
pub fn write_descriptors(differences: &Differences, order: u8, octets: u8, out: &mut BitWriter)
    requires order { (order ≡ 1) ⊎ (order ≡ 2) }
    requires octets { octets ≡ descriptor_size (read_with order differences.now) }
    requires first { nat_abs differences.now.first < 2 ^ 31 }
    requires second { nat_abs differences.now.second < 2 ^ 31 }
    requires minimum { nat_abs differences.now.minimum < 2 ^ 31 }
    requires room { 8 * ((order + 1) * octets) ≤ out.old.spare }
    ensures bits { out.new.bits ≡ out.old.bits ++ descriptor_fields (read_with order differences.now) }
    ensures spare { out.new.spare + 8 * ((order + 1) * octets) ≡ out.old.spare }
{
    let bits = 8 * u32::from(octets);
    out.put(differences.first.unsigned_abs(), bits);
    if order == 2 {
        out.put(differences.second.unsigned_abs(), bits);
    }
    out.put(sign_bit(differences.minimum), 1);
    out.put(differences.minimum.unsigned_abs(), bits - 1);
}

/// 1 for a negative number, else 0.
fn sign_bit(x: i64) -> u64
    ensures bit { result ≡ digit (int_lt x (pos 0)) }
    ensures small { result < 2 }
{
    if x < 0 { 1 } else { 0 }
}
