//! Numbers of whole octets, as they are written.

ghost use Rattle.std.specs.Prelude.{◌≡◌, ◌*◌, ◌^◌, ◌<◌, ◌≤◌};
ghost use Rattle.grib_bits.specs.Octets.{num_on};
ghost use Rattle.grib_bits.specs.Encoding.{octets_of, AddsOctets};

use crate::writer::BitWriter;

/// Writes a number of at most eight octets, the most significant first.
#[inline]
pub fn write_number(value: u64, octets: u32, out: &mut BitWriter)
    requires count { octets ≤ 8 }
    requires fits { value < 256 ^ octets }
    requires room { 8 * octets ≤ out.old.spare }
    ensures octets { AddsOctets out.old out.new (octets_of octets value) }
    ensures number { num_on 0 (octets_of octets value) ≡ value }
{
    out.put(value, 8 * octets);
}

/// Writes a number of one octet.
#[inline]
pub fn write_u8(value: u8, out: &mut BitWriter)
    requires { 8 ≤ out.old.spare }
    ensures octets { AddsOctets out.old out.new (octets_of 1 value) }
    ensures number { num_on 0 (octets_of 1 value) ≡ value }
{
    write_number(u64::from(value), 1, out);
}

/// Writes a number of two octets, the more significant first.
#[inline]
pub fn write_u16(value: u16, out: &mut BitWriter)
    requires { 16 ≤ out.old.spare }
    ensures octets { AddsOctets out.old out.new (octets_of 2 value) }
    ensures number { num_on 0 (octets_of 2 value) ≡ value }
{
    write_number(u64::from(value), 2, out);
}

/// Writes a number of four octets, the most significant first.
#[inline]
pub fn write_u32(value: u32, out: &mut BitWriter)
    requires { 32 ≤ out.old.spare }
    ensures octets { AddsOctets out.old out.new (octets_of 4 value) }
    ensures number { num_on 0 (octets_of 4 value) ≡ value }
{
    write_number(u64::from(value), 4, out);
}
