//! The lines of points with their places, on their way through a buffer.

ghost use Rattle.std.specs.Prelude.{◌≡◌, ℕ, ◌+◌, ◌*◌, ◌^◌, ◌<◌, ◌≤◌, false, List, ◌++◌, [], ◌∷◌, codes, length, OnOk, IfOk};
ghost use Rattle.std.specs.Fmt.{decimal};
ghost use Rattle.grib_decimal.specs.Decimal.{decimal_text, is_too_large, value_at};
ghost use Rattle.grib_rescan.specs.Sections.{HasPoints};
ghost use Rattle.grib_text.specs.Lines.{lines_by};
ghost use Rattle.grib_command.specs.Pending.{WritesToAllBut};
ghost use Rattle.grib_placed.specs.Lines.{place_text, placed_line};
ghost use Rattle.grib_placed.specs.Texts.{ArePlacesOf, text_in, HasText, HasTexts};

use crate::form::PointForm;
use crate::places::PlaceTexts;
use crate::whole::WholeText;
use grib_decimal::{DecimalFault, DecimalScale};
use grib_io::{Sink, Stop};
use grib_packing::Point;
use grib_places::{Coordinate, DegreesText, PlaceMicros};
use grib_report::make_room;
use std::alloc::{AllocError, Global};

impl PlaceTexts {
    /// Of a grid of template 3.0.
    pub(crate) fn of(alloc: Global, section: &[u8]) -> Result<PlaceTexts, AllocError>
        requires { HasPoints section.now }
        ensures { IfOk result (λ places. ArePlacesOf places section.now) }
    {
        let latitudes = PlaceMicros::of(alloc, section, Coordinate::Latitude)?;
        let longitudes = PlaceMicros::of(alloc, section, Coordinate::Longitude)?;
        Ok(PlaceTexts {
            latitudes,
            longitudes,
            degrees: DegreesText::new(),
            whole: WholeText::new(),
        })
    }

    /// Appends the number of a point, counted from 1, its latitude and its longitude, each with a blank behind it.
    #[inline]
    fn append(&self, lines: &mut Vec<u8>, index: u32) -> Result<(), AllocError>
        requires few { index + 1 < 2 ^ 32 }
        requires latitudes { index < self.now.latitudes.order.columns * self.now.latitudes.order.rows }
        requires longitudes { index < self.now.longitudes.order.columns * self.now.longitudes.order.rows }
        ensures { (s : List ℕ) → ArePlacesOf self.now s → OnOk result
            (lines.new.items ≡ lines.old.items ++ (decimal (index + 1) ++ codes " " ++ place_text s index ++ codes " ")) }
    {
        let number = index + 1;
        self.whole.append(lines, i64::from(number))?;
        lines.push(b' ')?;
        self.degrees.append(lines, self.latitudes.micro(index))?;
        lines.push(b' ')?;
        self.degrees.append(lines, self.longitudes.micro(index))?;
        lines.push(b' ')?;
        Ok(())
    }

    /// Appends what is told of a point.
    #[inline]
    fn append_point(
        &self,
        lines: &mut Vec<u8>,
        form: &PointForm,
        point: &Point,
    ) -> Result<(), AllocError>
        requires { HasText form.now point.now }
        ensures { OnOk result (lines.new.items ≡ lines.old.items ++ text_in form.now point.now) }
    {
        match *point {
            Point::Scaled(x) => match form {
                PointForm::Numbers => self.whole.append(lines, x),
                PointForm::Decimals(scale) => append_decimal(lines, scale, x),
            },
            Point::Missing => lines.extend_from_slice(b"missing"),
            Point::Missing2 => lines.extend_from_slice(b"missing2"),
        }
    }

    /// Appends the line of a point.
    #[inline]
    fn append_line(
        &self,
        lines: &mut Vec<u8>,
        form: &PointForm,
        index: u32,
        point: &Point,
    ) -> Result<(), AllocError>
        requires few { index + 1 < 2 ^ 32 }
        requires latitudes { index < self.now.latitudes.order.columns * self.now.latitudes.order.rows }
        requires longitudes { index < self.now.longitudes.order.columns * self.now.longitudes.order.rows }
        requires text { HasText form.now point.now }
        ensures { (s : List ℕ) → ArePlacesOf self.now s → OnOk result
            (lines.new.items ≡ lines.old.items ++ placed_line s (text_in form.now) (index + 1) point.now) }
    {
        self.append(lines, index)?;
        self.append_point(lines, form, point)?;
        lines.push(b'\n')?;
        Ok(())
    }
}

/// Appends the value of the point with the scaled number X, which has a text.
#[inline]
fn append_decimal(lines: &mut Vec<u8>, scale: &DecimalScale, x: i64) -> Result<(), AllocError>
    requires { is_too_large (value_at scale.now x) scale.now.places ≡ false }
    ensures { OnOk result (lines.new.items ≡ lines.old.items ++ decimal_text (value_at scale.now x) scale.now.places) }
{
    match scale.append(lines, x) {
        Ok(()) => Ok(()),
        Err(DecimalFault::Memory) => Err(AllocError),
        Err(DecimalFault::Range) => unreachable!(),
    }
}

/// Appends the line of each point to the buffer, which is passed on to the sink whenever it is full. What is left in the buffer is
/// still to be written.
pub(crate) fn append_placed<T: Sink>(
    places: &PlaceTexts,
    form: &PointForm,
    points: &[Point],
    lines: &mut Vec<u8>,
    output: &mut T,
) -> Result<(), Stop>
    requires few { length points.now < 2 ^ 32 }
    requires latitudes { length points.now ≤ places.now.latitudes.order.columns * places.now.latitudes.order.rows }
    requires longitudes { length points.now ≤ places.now.longitudes.order.columns * places.now.longitudes.order.rows }
    requires texts { HasTexts form.now points.now }
    ensures { (s : List ℕ) → ArePlacesOf places.now s
        → WritesToAllBut T.contents T.faults T.settled result output.old output.new
        (lines.old.items ++ lines_by (placed_line s (text_in form.now)) 1 points.now) lines.new.items }
{
    for (index, point) in points.iter().enumerate() {
        append_placed_point(places, form, index as u32, point, lines, output)?;
    }
    Ok(())
}

/// Appends the line of a point to the buffer, which is passed on first where it is full.
#[inline]
fn append_placed_point<T: Sink>(
    places: &PlaceTexts,
    form: &PointForm,
    index: u32,
    point: &Point,
    lines: &mut Vec<u8>,
    output: &mut T,
) -> Result<(), Stop>
    requires few { index + 1 < 2 ^ 32 }
    requires latitudes { index < places.now.latitudes.order.columns * places.now.latitudes.order.rows }
    requires longitudes { index < places.now.longitudes.order.columns * places.now.longitudes.order.rows }
    requires text { HasText form.now point.now }
    ensures { (s : List ℕ) → ArePlacesOf places.now s
        → WritesToAllBut T.contents T.faults T.settled result output.old output.new
        (lines.old.items ++ placed_line s (text_in form.now) (index + 1) point.now) lines.new.items }
{
    make_room(lines, output)?;
    places.append_line(lines, form, index, point)?;
    Ok(())
}
