//! What the points of a grid are read from.

ghost use Rattle.std.specs.Prelude.{◌≡◌, ◌+◌, ◌*◌, ◌^◌, ◌<◌, ◌≤◌, ◌++◌, List, length, take, drop, map, pos, OnOk};
ghost use Rattle.grib_bits.specs.Bits.{bits as bits_in};
ghost use Rattle.grib_packing.specs.declared.column.Point.{Point as point};
ghost use Rattle.grib_packing.specs.declared.column.Point.TheVariants.{Scaled};
ghost use Rattle.grib_simple_reading.specs.Part.{plain_from};
ghost use Rattle.grib_rescan.specs.Points.{point as point_in};
ghost use Rattle.grib_rescan.specs.Source.{number_points, NumbersStand};

use grib_bits::get_bits;
use grib_packing::Point;
use std::alloc::{AllocError, Global};

/// What the points of a grid are read from, some of them at a time.
pub trait GridPoints {
    // all of them, in their order
    ghost points: { Self → List point };

    // what holds of it, so that they can be read
    ghost stands: { Self → Type 0 };

    /// Adds `count` of the points, from the one at `from` on, counted from 0.
    fn add_to(&self, from: usize, count: usize, out: &mut Vec<Point>) -> Result<(), AllocError>
        requires stands { stands self.now }
        requires within { from + count ≤ length (points self.now) }
        ensures { OnOk result (out.new.items ≡ out.old.items ++ take count (drop from (points self.now))) };

    /// The point at a place, counted from 0.
    fn point(&self, place: usize) -> Point
        requires stands { stands self.now }
        requires within { place < length (points self.now) }
        ensures { result ≡ point_in (points self.now) place };
}

/// Points that stand in memory.
#[derive(Clone, Copy, Debug)]
pub struct Listed<'a> {
    pub points: &'a [Point],
}

impl<'a> GridPoints for Listed<'a> {
    ghost points = { λ listed. listed.points.now };

    ghost stands = { λ _. Unit {0} };

    #[inline]
    fn add_to(&self, from: usize, count: usize, out: &mut Vec<Point>) -> Result<(), AllocError> {
        out.extend_from_slice(&self.points[from..from + count])
    }

    #[inline]
    fn point(&self, place: usize) -> Point {
        self.points[place]
    }
}

/// Points whose scaled integers stand one after another from the first bit of the octets on, each without sign in
/// as many bits (WMO-No. 306, Volume I.2, FM 92 GRIB edition 2, data template 7.0).
#[derive(Clone, Copy, Debug)]
pub struct Numbers<'a> {
    pub octets: &'a [u8],
    /// How many bits each has, 48 at most.
    pub bits: u32,
    /// How many there are.
    pub count: u32,
}

impl<'a> GridPoints for Numbers<'a> {
    ghost points = { number_points };

    ghost stands = { NumbersStand };

    #[inline]
    fn add_to(&self, from: usize, count: usize, out: &mut Vec<Point>) -> Result<(), AllocError> {
        add_numbers(self.octets, self.bits, from, count, out)
    }

    #[inline]
    fn point(&self, place: usize) -> Point {
        let at = place as u64 * u64::from(self.bits);
        scaled_point(get_bits(self.octets, at, self.bits))
    }
}

/// Adds the points of `count` numbers of `bits` bits each, from the one at `from` on, counted from 0.
#[inline]
fn add_numbers(
    octets: &[u8],
    bits: u32,
    from: usize,
    count: usize,
    out: &mut Vec<Point>,
) -> Result<(), AllocError>
    requires width { bits ≤ 48 }
    requires within { (from + count) * bits ≤ 8 * length octets.now }
    requires short { from + count < 2 ^ 32 }
    ensures { OnOk result (out.new.items ≡ out.old.items
        ++ map (λ x. Scaled (pos x)) (plain_from (bits_in octets.now) bits from count)) }
{
    for index in from..from + count {
        let at = index as u64 * u64::from(bits);
        out.push(scaled_point(get_bits(octets, at, bits)))?;
    }
    Ok(())
}

/// The point with this scaled integer.
#[inline]
fn scaled_point(number: u64) -> Point
    requires { number < 2 ^ 48 }
    ensures { result ≡ Scaled (pos number) }
{
    Point::Scaled(number as i64)
}
