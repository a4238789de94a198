//! Arrays of the coordinates of points on their way through a buffer.

ghost use Rattle.std.specs.Prelude.{◌≡◌, ℕ, ◌*◌, ◌≤◌, List, ◌++◌, false, length};
ghost use Rattle.grib_bits.specs.Octets.{octets as octets_of};
ghost use Rattle.grib2_sections.specs.Template.{least_length};
ghost use Rattle.grib2_grids.specs.Grid as grid2;
ghost use Rattle.grib2_grids.specs.Opaque as opaque_grids;
ghost use Rattle.grib_nearest.specs.declared.format.Format.TheVariants.{Binary64};
ghost use Rattle.grib_arrays.specs.Values.{word_octets};
ghost use Rattle.grib_rescan.specs.Sections.{HasPoints};
ghost use Rattle.grib_places.specs.declared.coordinate.Coordinate.{Coordinate as Told};
ghost use Rattle.grib_places.specs.Tables.{AreWordsOf};
ghost use Rattle.grib_command.specs.Pending.{WritesToAllBut};
ghost use Rattle.grib_values.specs.Coordinates as definitions;

use crate::appending::append_head;
use crate::shapes::second_shape;
use grib_bits::u32_at;
use grib_io::{Sink, Stop};
use grib_nearest::Format;
use grib_places::{Coordinate, PlaceWords};
use grib_report::make_room;
use std::alloc::Global;

/// Appends the arrays of the latitudes and of the longitudes of the points of a grid with this Section 3 to the buffer, which is
/// passed on to the sink whenever it is full. What is left in the buffer is still to be written.
pub(crate) fn append_arrays<T: Sink>(
    alloc: Global,
    section: &[u8],
    octets: &mut Vec<u8>,
    output: &mut T,
) -> Result<(), Stop>
    requires grid { HasPoints section.now }
    requires long { opaque_grids.is_opaque_grid section.now ≡ false
        → least_length grid2.grid_templates (grid2.grid_template section.now) ≤ length section.now }
    requires points { octets_of section.now 31 34 * octets_of section.now 35 38 ≡ octets_of section.now 7 10 }
    ensures { WritesToAllBut T.contents T.faults T.settled result output.old output.new
        (octets.old.items ++ definitions.arrays_of section.now) octets.new.items }
{
    append_array(alloc, section, Coordinate::Latitude, octets, output)?;
    append_array(alloc, section, Coordinate::Longitude, octets, output)
}

/// Appends the array of the latitudes, or of the longitudes.
fn append_array<T: Sink>(
    alloc: Global,
    section: &[u8],
    coordinate: Coordinate,
    octets: &mut Vec<u8>,
    output: &mut T,
) -> Result<(), Stop>
    requires grid { HasPoints section.now }
    requires long { opaque_grids.is_opaque_grid section.now ≡ false
        → least_length grid2.grid_templates (grid2.grid_template section.now) ≤ length section.now }
    requires points { octets_of section.now 31 34 * octets_of section.now 35 38 ≡ octets_of section.now 7 10 }
    ensures { WritesToAllBut T.contents T.faults T.settled result output.old output.new
        (octets.old.items ++ definitions.coordinate_array coordinate section.now) octets.new.items }
{
    let places = PlaceWords::of(alloc, section, coordinate)?;
    let shape = second_shape(section);
    append_head(alloc, Format::Binary64, shape, octets, output)?;
    append_words(&places, u32_at(section, 7), octets, output)
}

/// Appends the octets of each word to the buffer, which is passed on to the sink whenever it is full.
fn append_words<T: Sink>(
    places: &PlaceWords,
    points: u32,
    octets: &mut Vec<u8>,
    output: &mut T,
) -> Result<(), Stop>
    requires { points ≤ places.now.order.columns * places.now.order.rows }
    ensures { (coordinate : Told) (s : List ℕ) → AreWordsOf places.now coordinate s
        → WritesToAllBut T.contents T.faults T.settled result output.old output.new
        (octets.old.items ++ definitions.coordinates_from coordinate s points) octets.new.items }
{
    for point in 0..points {
        append_word(places.word(point), octets, output)?;
    }
    Ok(())
}

/// Appends the octets of a word to the buffer, which is passed on first where it is full.
#[inline]
fn append_word<T: Sink>(word: u64, octets: &mut Vec<u8>, output: &mut T) -> Result<(), Stop>
    ensures { WritesToAllBut T.contents T.faults T.settled result output.old output.new
        (octets.old.items ++ word_octets Binary64 word) octets.new.items }
{
    make_room(octets, output)?;
    octets.extend_from_slice(&word.to_le_bytes())?;
    Ok(())
}
