//! Arrays on their way through a buffer.

ghost use Rattle.std.specs.Prelude.{ℤ, ◌≤◌, ◌^◌, ◌<◌, ◌++◌, nat_abs, flat_map};
ghost use Rattle.grib_dyadic.specs.Reference.{Binary};
ghost use Rattle.grib_nearest.specs.declared.format.Format.{Format as formats};
ghost use Rattle.grib_arrays.specs.Header.{header};
ghost use Rattle.grib_arrays.specs.Scale.{IsScaleOf};
ghost use Rattle.grib_arrays.specs.Values.{point_octets};
ghost use Rattle.grib_command.specs.Pending.{WritesToAllBut};
ghost use Rattle.grib_values.specs.Arrays.{array};

use grib_arrays::{ArrayScale, Shape, append_header};
use grib_dyadic::Dyadic;
use grib_io::{Sink, Stop};
use grib_nearest::Format;
use grib_packing::{Column, Point};
use grib_report::make_room;
use std::alloc::Global;

/// Appends the array of a column to the buffer, which is passed on to the sink whenever it is full. What is left in the
/// buffer is still to be written.
pub(crate) fn append_array<T: Sink>(
    alloc: Global,
    format: Format,
    shape: Shape,
    reference: &Dyadic,
    column: &Column,
    octets: &mut Vec<u8>,
    output: &mut T,
) -> Result<(), Stop>
    requires mantissa { nat_abs reference.now.mantissa < 2 ^ 24 }
    requires exponent { nat_abs reference.now.exponent ≤ 2 ^ 15 }
    ensures { WritesToAllBut T.contents T.faults T.settled result output.old output.new
        (octets.old.items ++ array format shape reference.now column.now) octets.new.items }
{
    append_head(alloc, format, shape, octets, output)?;
    let scale = ArrayScale::of(format, reference, column.e, column.d);
    append_values(alloc, &scale, column.points.as_slice(), octets, output)
}

/// Appends the header of an array to the buffer, which is passed on first where it is full.
pub(crate) fn append_head<T: Sink>(
    alloc: Global,
    format: Format,
    shape: Shape,
    octets: &mut Vec<u8>,
    output: &mut T,
) -> Result<(), Stop>
    ensures { WritesToAllBut T.contents T.faults T.settled result output.old output.new
        (octets.old.items ++ header format shape) octets.new.items }
{
    make_room(octets, output)?;
    append_header(alloc, octets, format, shape)?;
    Ok(())
}

/// Appends the octets of each point to the buffer, which is passed on to the sink whenever it is full.
fn append_values<T: Sink>(
    alloc: Global,
    scale: &ArrayScale,
    points: &[Point],
    octets: &mut Vec<u8>,
    output: &mut T,
) -> Result<(), Stop>
    ensures { (f : formats) (r : Binary) (e d : ℤ) → IsScaleOf scale.now f r e d
        → WritesToAllBut T.contents T.faults T.settled result output.old output.new
        (octets.old.items ++ flat_map (point_octets f r e d) points.now) octets.new.items }
{
    for point in points {
        append_value(alloc, scale, point, octets, output)?;
    }
    Ok(())
}

/// Appends the octets of a point to the buffer, which is passed on first where it is full.
#[inline]
fn append_value<T: Sink>(
    alloc: Global,
    scale: &ArrayScale,
    point: &Point,
    octets: &mut Vec<u8>,
    output: &mut T,
) -> Result<(), Stop>
    ensures { (f : formats) (r : Binary) (e d : ℤ) → IsScaleOf scale.now f r e d
        → WritesToAllBut T.contents T.faults T.settled result output.old output.new
        (octets.old.items ++ point_octets f r e d point.now) octets.new.items }
{
    make_room(octets, output)?;
    scale.append(alloc, octets, point)?;
    Ok(())
}
