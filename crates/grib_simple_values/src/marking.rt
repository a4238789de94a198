//! Bits of values that are written as they come.

ghost use Rattle.std.specs.Prelude.{◌≤◌, ◌++◌, List, [], ◌∷◌, length, IfOk};
ghost use Rattle.grib_bits.specs.Bits.{bits_of};
ghost use Rattle.grib_packing.specs.declared.column.Point as column_point;
ghost use Rattle.grib_packing.specs.Packed.{HasContents, present_bits};
ghost use Rattle.grib_simple_values.specs.Marked.{HasBitmap, BitmapKept};

use crate::BitmapWriter;
use grib_base::List;
use grib_bits::write_u8;
use grib_packing::{Point, octets_written, room_for, write_head};
use grib_simple::present_bit;
use std::alloc::{AllocError, Global};

impl BitmapWriter {
    /// The head of a Section 6 with this many bits, and room for these.
    ///
    /// # Errors
    ///
    /// There is no memory for the section.
    pub fn start(alloc: Global, count: u32) -> Result<BitmapWriter, AllocError>
        requires { count ≤ 33554432 }
        ensures { IfOk result (HasBitmap count []) }
    {
        let length = 6 + count.div_ceil(8);
        let mut out = room_for(alloc, length)?;
        write_head(length, 6, &mut out);
        write_u8(0, &mut out);
        Ok(BitmapWriter { out, left: count })
    }

    /// Writes the bit of the next value.
    #[inline(always)]
    pub fn with_point(self, point: Point) -> BitmapWriter
        ensures { BitmapKept self (point ∷ []) result }
    {
        if self.left == 0 {
            return self;
        }
        let mut writer = self;
        writer.left -= 1;
        writer.out.put(present_bit(point), 1);
        writer
    }

    /// The section, once all values came.
    pub fn finish(self) -> List<u8>
        ensures { (points : List column_point.Point) → length points ≤ 33554432 → HasBitmap (length points) points self
            → HasContents 6 result (bits_of 8 0 ++ present_bits points) }
    {
        let mut out = self.out;
        out.align();
        octets_written(out)
    }
}
