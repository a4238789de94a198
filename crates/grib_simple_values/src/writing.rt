//! Numbers that are written as they come.

ghost use Rattle.std.specs.Prelude.{◌≡◌, ℕ, List, ◌^◌, ◌<◌, ◌≤◌, ◌+◌, [], ◌∷◌, length, IfOk};
ghost use Rattle.grib_packing.specs.declared.column.Point.TheVariants.{Scaled};
ghost use Rattle.grib_packing.specs.Groupings.{digits, greatest as greatest_of};
ghost use Rattle.grib_packing.specs.Packed.{HasContents, fields};
ghost use Rattle.grib_simple_values.specs.Written.{HasWritten, NumbersKept, numbers-none, numbers-more};

use crate::NumberWriter;
use grib_base::List;
use grib_packing::{Keeper, Point, bit_length, octets_written, room_for, write_head};
use std::alloc::{AllocError, Global};

impl NumberWriter {
    /// The head of a Section 7 with this many numbers, and room for these, of which this is the greatest.
    ///
    /// # Errors
    ///
    /// There is no memory for the section.
    pub fn start(alloc: Global, count: u32, greatest: u64) -> Result<NumberWriter, AllocError>
        requires few { count ≤ 33554432 }
        requires narrow { greatest < 2 ^ 48 }
        ensures { IfOk result (HasWritten count greatest []) }
    {
        let width = bit_length(greatest);
        let length = 5 + (count * width).div_ceil(8);
        let mut out = room_for(alloc, length)?;
        write_head(length, 7, &mut out);
        Ok(NumberWriter {
            out,
            greatest,
            width,
            left: count,
        })
    }

    /// The section, once all numbers came.
    pub fn finish(self) -> List<u8>
        ensures { (numbers : List ℕ) → length numbers ≤ 33554432 → greatest_of numbers < 2 ^ 48
            → HasWritten (length numbers) (greatest_of numbers) numbers self
            → HasContents 7 result (fields (digits (greatest_of numbers)) numbers) }
    {
        let mut out = self.out;
        out.align();
        octets_written(out)
    }

    /// Writes the number of the next point.
    #[inline(always)]
    fn with_number(self, x: i64) -> NumberWriter
        requires { 1 ≤ self.left }
        ensures kept { NumbersKept self (Scaled x ∷ []) result }
        ensures room { self.left ≤ result.left + 1 }
    {
        let number = x.unsigned_abs().min(self.greatest);
        let width = self.width;
        let mut writer = self;
        writer.left -= 1;
        writer.out.put(number, width);
        writer
    }
}

impl Keeper for NumberWriter {
    ghost kept = { NumbersKept };

    ghost room = { λ writer. writer.left };

    #[inline(always)]
    fn room(&self) -> u32 {
        self.left
    }

    #[inline(always)]
    fn keep(self, point: Point) -> NumberWriter {
        if self.left == 0 {
            return self;
        }
        self.keep_within(point)
    }

    #[inline(always)]
    fn keep_within(self, point: Point) -> NumberWriter {
        match point {
            Point::Scaled(x) => self.with_number(x),
            _ => self,
        }
    }

    ghost none = { numbers-none };

    ghost more = { numbers-more };
}
