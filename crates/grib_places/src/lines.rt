//! The points of the columns and the rows of a grid.

ghost use Rattle.std.specs.Prelude.{◌≡◌, ◌+◌, ◌<◌, ◌≤◌, ◌^◌, ◌+ℤ◌, ◌*ℤ◌, nat_abs, map, length, pos, IfOk};
ghost use Rattle.std.specs.List.{range_with_len};
ghost use Rattle.grib_bits.specs.Octets.{signed_octets};
ghost use Rattle.grib_rescan.specs.Sections.{HasPoints};
ghost use Rattle.grib_places.specs.declared.coordinate.Coordinate.TheVariants as coordinates;
ghost use Rattle.grib_places.specs.Degrees.{degrees_word, micro_degrees};
ghost use Rattle.grib_places.specs.Places as definitions;
ghost use Rattle.grib_places.specs.Places.{stepped};
ghost use Rattle.grib_places.specs.Tables.{IsLineOf};

use crate::coordinate::Coordinate;
use crate::line::Line;
use crate::rounding::rounded;
use grib_bits::{signed_of, u8_at, u32_at};
use grib_nearest::binary64;
use grib_rescan::Scanning;
use std::alloc::{AllocError, Global};

/// 360 degrees in 10^-6 degree.
const TURN: u32 = 360_000_000;

impl Line {
    /// A column of a grid of template 3.0, for its latitudes, or a row, for its longitudes.
    pub(crate) fn of(section: &[u8], coordinate: Coordinate) -> Line
        requires { HasPoints section.now }
        ensures { IsLineOf result coordinate section.now }
    {
        match coordinate {
            Coordinate::Latitude => column(section),
            Coordinate::Longitude => row(section),
        }
    }

    /// The word of each point.
    pub(crate) fn words(self, alloc: Global) -> Result<Vec<u64>, AllocError>
        ensures { IfOk result (λ words. words.items
            ≡ map (λ k. degrees_word (stepped self.first self.way self.count k)) (range_with_len 0 self.count)) }
    {
        let mut words = Vec::with_capacity(alloc, self.count as usize)?;
        for k in 0..self.count {
            words.push(self.word(k))?;
        }
        Ok(words)
    }

    /// Each point in 10^-6 degree.
    pub(crate) fn micros(self, alloc: Global) -> Result<Vec<i64>, AllocError>
        ensures { IfOk result (λ micros. micros.items
            ≡ map (λ k. micro_degrees (stepped self.first self.way self.count k)) (range_with_len 0 self.count)) }
    {
        let mut micros = Vec::with_capacity(alloc, self.count as usize)?;
        for k in 0..self.count {
            micros.push(self.micro(k))?;
        }
        Ok(micros)
    }

    /// The word of point k, from 0.
    fn word(self, k: u32) -> u64
        requires { k < self.count }
        ensures { result ≡ degrees_word (stepped self.first self.way self.count k) }
    {
        let divisor = 1_000_000 * u128::from(self.parts());
        binary64(i128::from(self.number(k)), 0, divisor)
    }

    /// Point k, from 0, in 10^-6 degree, the nearest whole number.
    fn micro(self, k: u32) -> i64
        requires { k < self.count }
        ensures { result ≡ micro_degrees (stepped self.first self.way self.count k) }
    {
        rounded(self.number(k), self.parts())
    }

    /// How many steps lead from the first point to the last; 1 where there is one point.
    fn parts(self) -> u32
        ensures value { result ≡ definitions.parts_of self.count }
        ensures some { 1 ≤ result }
        ensures few { result ≤ 2 ^ 25 }
    {
        (self.count - 1).max(1)
    }

    /// Point k, from 0, in as many parts of 10^-6 degree as there are steps.
    fn number(self, k: u32) -> i64
        requires { k < self.count }
        ensures value { result ≡ (stepped self.first self.way self.count k).number }
        ensures small { nat_abs result < 2 ^ 62 }
    {
        sum_of(self.first, self.parts(), self.way, k)
    }
}

/// The sum of two products.
fn sum_of(first: i64, parts: u32, way: i64, k: u32) -> i64
    requires first { nat_abs first < 2 ^ 32 }
    requires way { nat_abs way < 2 ^ 32 }
    requires parts { parts ≤ 2 ^ 25 }
    requires k { k ≤ 2 ^ 25 }
    ensures value { result ≡ (first *ℤ pos parts) +ℤ (way *ℤ pos k) }
    ensures small { nat_abs result < 2 ^ 62 }
{
    first * i64::from(parts) + way * i64::from(k)
}

/// A column of a grid, with its latitudes.
fn column(section: &[u8]) -> Line
    requires { HasPoints section.now }
    ensures { IsLineOf result coordinates.Latitude section.now }
{
    let first = signed_at(section, 47);
    let last = signed_at(section, 56);
    Line {
        first,
        way: last - first,
        count: u32_at(section, 35),
    }
}

/// A row of a grid, with its longitudes.
fn row(section: &[u8]) -> Line
    requires { HasPoints section.now }
    ensures { IsLineOf result coordinates.Longitude section.now }
{
    let westward = Scanning::of(u8_at(section, 72)).westward;
    let (first, last) = (u32_at(section, 51), u32_at(section, 60));
    Line {
        first: i64::from(first),
        way: row_way(westward, first, last),
        count: u32_at(section, 31),
    }
}

/// The way from the first longitude to the last, to the west where points of a row go there.
fn row_way(westward: bool, first: u32, last: u32) -> i64
    ensures value { result ≡ definitions.row_way westward first last }
    ensures small { nat_abs result < 2 ^ 32 }
{
    if westward {
        -i64::from(eastward(last, first))
    } else {
        i64::from(eastward(first, last))
    }
}

/// The way to the east from one longitude to another; a whole turn where they are one meridian.
fn eastward(from: u32, to: u32) -> u32
    ensures value { result ≡ definitions.eastward from to }
    ensures small { result ≤ 360000000 }
{
    let back = u64::from(from) + u64::from(TURN - to % TURN);
    TURN - (back % u64::from(TURN)) as u32
}

/// The number with sign of the four octets from `first` on.
fn signed_at(section: &[u8], first: usize) -> i64
    requires counted { 1 ≤ first }
    requires within { first + 3 ≤ length section.now }
    ensures value { result ≡ signed_octets section.now first (first + 3) }
    ensures small { nat_abs result < 2 ^ 31 }
{
    signed_of(u64::from(u32_at(section, first)), 32)
}
