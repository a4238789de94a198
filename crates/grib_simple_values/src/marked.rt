//! Numbers of values, and which of these are missing.

ghost use Rattle.std.specs.Prelude.{◌≡◌, ◌^◌, ◌<◌, ◌≤◌, [], IfOk};
ghost use Rattle.grib_simple_values.specs.Marked.{HasBitmap, MarkedKept, marked-none, marked-more};
ghost use Rattle.grib_simple_values.specs.Written.{HasWritten};

use crate::{BitmapWriter, NumberWriter};
use grib_packing::{Keeper, Point};
use std::alloc::{AllocError, Global};

/// The Sections 6 and 7 of values of which some are missing, as these come.
#[derive(Debug, Drop)]
pub struct MarkedWriter {
    pub numbers: NumberWriter,
    pub bitmap: BitmapWriter,
}

impl MarkedWriter {
    /// Room for this many values, of which so many are not missing, and this is the greatest.
    ///
    /// # Errors
    ///
    /// There is no memory for the sections.
    pub fn start(
        alloc: Global,
        values: u32,
        present: u32,
        greatest: u64,
    ) -> Result<MarkedWriter, AllocError>
        requires few { values ≤ 33554432 }
        requires present { present ≤ values }
        requires narrow { greatest < 2 ^ 48 }
        ensures numbers { IfOk result (λ writer. HasWritten present greatest [] writer.numbers) }
        ensures bitmap { IfOk result (λ writer. HasBitmap values [] writer.bitmap) }
    {
        let numbers = NumberWriter::start(alloc, present, greatest)?;
        let bitmap = BitmapWriter::start(alloc, values)?;
        Ok(MarkedWriter { numbers, bitmap })
    }
}

impl Keeper for MarkedWriter {
    ghost kept = { MarkedKept };

    ghost room = { λ writer. writer.numbers.left };

    #[inline(always)]
    fn room(&self) -> u32 {
        self.numbers.left
    }

    #[inline(always)]
    fn keep(self, point: Point) -> MarkedWriter {
        let MarkedWriter { numbers, bitmap } = self;
        MarkedWriter {
            numbers: numbers.keep(point),
            bitmap: bitmap.with_point(point),
        }
    }

    #[inline(always)]
    fn keep_within(self, point: Point) -> MarkedWriter {
        let MarkedWriter { numbers, bitmap } = self;
        MarkedWriter {
            numbers: numbers.keep_within(point),
            bitmap: bitmap.with_point(point),
        }
    }

    ghost none = { marked-none };

    ghost more = { marked-more };
}
