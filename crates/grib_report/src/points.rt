//! Text on its way through a buffer, and the lines of the points of a column.

ghost use Rattle.std.specs.Prelude.{◌≡◌, ◌^◌, ◌<◌, ◌++◌, false, None, length};
ghost use Rattle.grib_decimal.specs.Range.{first_too_large, is_point_too_large};
ghost use Rattle.grib_text.specs.Lines.{point_line, point_lines};
ghost use Rattle.grib_text.specs.Values.{value_line, value_lines};
ghost use Rattle.grib_command.specs.Pending.{WritesToAllBut};

use grib_command::write_whole;
use grib_decimal::DecimalScale;
use grib_io::{Sink, Stop};
use grib_packing::Point;
use grib_text::{append_point_line, append_value_line};

/// From this many octets on a buffer is passed on.
const FULL: usize = 65_536;

/// The octets of lines that are gathered before they are passed on, and room for some lines more.
pub const ROOM: usize = FULL + 1024;

/// Appends some text to the buffer, which is passed on first where it is full.
pub fn append_text<T: Sink>(lines: &mut Vec<u8>, text: &[u8], output: &mut T) -> Result<(), Stop>
    ensures { WritesToAllBut T.contents T.faults T.settled result output.old output.new
        (lines.old.items ++ text.now) lines.new.items }
{
    make_room(lines, output)?;
    lines.extend_from_slice(text)?;
    Ok(())
}

/// Appends the line of each point to the buffer, which is passed on to the sink whenever it is full. What
/// is left in the buffer is still to be written.
pub(crate) fn append_points<T: Sink>(
    lines: &mut Vec<u8>,
    points: &[Point],
    output: &mut T,
) -> Result<(), Stop>
    requires few { length points.now < 2 ^ 32 }
    ensures { WritesToAllBut T.contents T.faults T.settled result output.old output.new
        (lines.old.items ++ point_lines 1 points.now) lines.new.items }
{
    for (index, point) in points.iter().enumerate() {
        append_point(lines, index as u32 + 1, point, output)?;
    }
    Ok(())
}

/// Appends the line of each point with its value to the buffer, as `append_points` does. Each value has a text.
pub(crate) fn append_values<T: Sink>(
    lines: &mut Vec<u8>,
    points: &[Point],
    scale: &DecimalScale,
    output: &mut T,
) -> Result<(), Stop>
    requires few { length points.now < 2 ^ 32 }
    requires fits { first_too_large scale.now points.now ≡ None }
    ensures { WritesToAllBut T.contents T.faults T.settled result output.old output.new
        (lines.old.items ++ value_lines scale.now 1 points.now) lines.new.items }
{
    for (index, point) in points.iter().enumerate() {
        append_value(lines, index as u32 + 1, point, scale, output)?;
    }
    Ok(())
}

/// Appends the line of a point to the buffer, which is passed on first where it is full.
#[inline]
fn append_point<T: Sink>(
    lines: &mut Vec<u8>,
    place: u32,
    point: &Point,
    output: &mut T,
) -> Result<(), Stop>
    ensures { WritesToAllBut T.contents T.faults T.settled result output.old output.new
        (lines.old.items ++ point_line place point.now) lines.new.items }
{
    make_room(lines, output)?;
    append_point_line(lines, place, point)?;
    Ok(())
}

/// Appends the line of a point with its value to the buffer, which is passed on first where it is full.
#[inline]
fn append_value<T: Sink>(
    lines: &mut Vec<u8>,
    place: u32,
    point: &Point,
    scale: &DecimalScale,
    output: &mut T,
) -> Result<(), Stop>
    requires { is_point_too_large scale.now point.now ≡ false }
    ensures { WritesToAllBut T.contents T.faults T.settled result output.old output.new
        (lines.old.items ++ value_line scale.now place point.now) lines.new.items }
{
    make_room(lines, output)?;
    append_value_line(lines, place, point, scale)?;
    Ok(())
}

/// Writes a full buffer, and empties it.
#[inline]
pub fn make_room<T: Sink>(lines: &mut Vec<u8>, output: &mut T) -> Result<(), Stop>
    ensures { WritesToAllBut T.contents T.faults T.settled result output.old output.new
        lines.old.items lines.new.items }
{
    if lines.len() >= FULL {
        write_whole(output, lines.as_slice())?;
        lines.clear();
    }
    Ok(())
}
