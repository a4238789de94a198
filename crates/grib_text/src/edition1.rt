//! The line of `list` for messages of edition 1.

ghost use Rattle.std.specs.Prelude.{◌≡◌, ◌<◌, ◌^◌, Some, string_bytes, IfOk};
ghost use Rattle.grib_keys.specs.declared.key1.Key1.TheVariants.{Version, Centre, Parameter, LevelType, Level, YearOfCentury, Month, Day, Hour, Minute, Unit as TimeUnit, P1, P2, TimeRange, Century};
ghost use Rattle.grib1_sections.specs.Keys.{key1_of};
ghost use Rattle.grib1_sections.specs.Grid.{grid_type};
ghost use Rattle.grib1_sections.specs.Data.{bit_width};
ghost use Rattle.grib1_sections.specs.Acceptance.{grid, data_section, points_of, values_of};
ghost use Rattle.grib_text.specs.Lines.{origin_of};
ghost use Rattle.grib_text.specs.Lines1 as lines;

use grib1_sections::{Key1, Message1};
use std::alloc::{AllocError, Global};
use std::fmt;

/// The line of the message with this number, from 1. The only error is that there is no memory.
pub fn list_line1(alloc: Global, message: &Message1<'_>, number: u64) -> Result<Vec<u8>, AllocError>
    ensures { IfOk result (λ line. line.items ≡ lines.list_line1 message.now number) }
{
    let mut line = list_text1(alloc, message, number)?;
    line.push('\n')?;
    Ok(line.into_bytes())
}

/// The same without its newline.
pub(crate) fn list_text1(
    alloc: Global,
    message: &Message1<'_>,
    number: u64,
) -> Result<String, AllocError>
    ensures { IfOk result (λ text. string_bytes text ≡ lines.list_text1 message.now number) }
{
    let origin = Origin::read(message);
    let grid = Grid::read(message);
    let product = Product::read(message);
    let packing = Packing::read(message);
    format!(in alloc; "{number}.1 ed=1 {origin} {grid} {product} {packing}")
}

/// Where and for when a field was made.
#[derive(Clone, Copy, Debug)]
struct Origin {
    centre: u64,
    time: Time,
}

impl Origin {
    fn read(message: &Message1<'_>) -> Self
        ensures centre { result.centre ≡ key1_of message.now Centre }
        ensures time { lines.time1_of result.time.year result.time.month result.time.day
            result.time.hour result.time.minute ≡ lines.time1_text message.now }
    {
        Origin {
            centre: message.key1(Key1::Centre),
            time: Time::read(message),
        }
    }
}

impl fmt::Display for Origin {
    ghost output = { λ o. Some (origin_of o.centre
        (lines.time1_of o.time.year o.time.month o.time.day o.time.hour o.time.minute)) };

    fn fmt<W: fmt::Write>(&self, f: &mut fmt::Formatter<W>) -> fmt::Result {
        let Origin { centre, time } = *self;
        write!(f, "centre={centre} time={time}")
    }
}

/// A reference time. The year may be negative.
#[derive(Clone, Copy, Debug)]
struct Time {
    year: i64,
    month: u64,
    day: u64,
    hour: u64,
    minute: u64,
}

impl Time {
    fn read(message: &Message1<'_>) -> Self
        ensures year { result.year
            ≡ lines.year_of (key1_of message.now Century) (key1_of message.now YearOfCentury) }
        ensures month { result.month ≡ key1_of message.now Month }
        ensures day { result.day ≡ key1_of message.now Day }
        ensures hour { result.hour ≡ key1_of message.now Hour }
        ensures minute { result.minute ≡ key1_of message.now Minute }
    {
        let century = message.key1(Key1::Century);
        let year_of_century = message.key1(Key1::YearOfCentury);
        Time {
            year: 100 * (century as i64 - 1) + year_of_century as i64,
            month: message.key1(Key1::Month),
            day: message.key1(Key1::Day),
            hour: message.key1(Key1::Hour),
            minute: message.key1(Key1::Minute),
        }
    }
}

impl fmt::Display for Time {
    ghost output = { λ t. Some (lines.time1_of t.year t.month t.day t.hour t.minute) };

    fn fmt<W: fmt::Write>(&self, f: &mut fmt::Formatter<W>) -> fmt::Result {
        let Time {
            year,
            month,
            day,
            hour,
            minute,
        } = *self;
        write!(f, "{year:04}-{month:02}-{day:02}T{hour:02}:{minute:02}")
    }
}

/// A grid: its type and the number of its points.
#[derive(Clone, Copy, Debug)]
struct Grid {
    grid_type: u8,
    points: u32,
}

impl Grid {
    fn read(message: &Message1<'_>) -> Self
        ensures grid_type { result.grid_type ≡ grid_type (grid message.now) }
        ensures points { result.points ≡ points_of message.now }
    {
        Grid {
            grid_type: message.grid_type(),
            points: message.points(),
        }
    }
}

impl fmt::Display for Grid {
    ghost output = { λ g. Some (lines.grid1_of g.grid_type g.points) };

    fn fmt<W: fmt::Write>(&self, f: &mut fmt::Formatter<W>) -> fmt::Result {
        let Grid { grid_type, points } = *self;
        write!(f, "grid={grid_type} points={points}")
    }
}

/// A product: its parameter by the version of the table, for when it is, and its level.
#[derive(Clone, Copy, Debug)]
struct Product {
    version: u64,
    parameter: u64,
    unit: u64,
    range: u64,
    p1: u64,
    p2: u64,
    level_type: u64,
    level: u64,
}

impl Product {
    fn read(message: &Message1<'_>) -> Self
        ensures { lines.product1_of result.version result.parameter result.unit result.range
            result.p1 result.p2 result.level_type result.level ≡ lines.product1_text message.now }
    {
        Product {
            version: message.key1(Key1::Version),
            parameter: message.key1(Key1::Parameter),
            unit: message.key1(Key1::Unit),
            range: message.key1(Key1::TimeRange),
            p1: message.key1(Key1::P1),
            p2: message.key1(Key1::P2),
            level_type: message.key1(Key1::LevelType),
            level: message.key1(Key1::Level),
        }
    }
}

impl fmt::Display for Product {
    ghost output = { λ p. Some (lines.product1_of p.version p.parameter p.unit p.range
        p.p1 p.p2 p.level_type p.level) };

    fn fmt<W: fmt::Write>(&self, f: &mut fmt::Formatter<W>) -> fmt::Result {
        let Product {
            version,
            parameter,
            unit,
            range,
            p1,
            p2,
            level_type,
            level,
        } = *self;
        write!(
            f,
            "param={version}.{parameter} unit={unit} range={range} p1={p1} p2={p2} level={level_type}:{level}"
        )
    }
}

/// A packing: the bits of each number, and how many points are present.
#[derive(Clone, Copy, Debug)]
struct Packing {
    bits: u8,
    values: u32,
}

impl Packing {
    fn read(message: &Message1<'_>) -> Self
        ensures bits { result.bits ≡ bit_width (data_section message.now) }
        ensures values { result.values ≡ values_of message.now }
    {
        Packing {
            bits: message.bits(),
            values: message.values(),
        }
    }
}

impl fmt::Display for Packing {
    ghost output = { λ p. Some (lines.packing1_of p.bits p.values) };

    fn fmt<W: fmt::Write>(&self, f: &mut fmt::Formatter<W>) -> fmt::Result {
        let Packing { bits, values } = *self;
        write!(f, "bits={bits} values={values}")
    }
}
