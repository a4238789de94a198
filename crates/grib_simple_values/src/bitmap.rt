//! Section 6 of the points of a mask.

ghost use Rattle.std.specs.Prelude.{◌≡◌, ◌≤◌, ◌++◌, List, length, IfOk};
ghost use Rattle.grib_bits.specs.Bits.{bits_of};
ghost use Rattle.grib_bitmap.specs.Mask.{present_count};
ghost use Rattle.grib_packing.specs.declared.column.Point as column_point;
ghost use Rattle.grib_packing.specs.Packed.{HasContents, IsBitmap, present_bits};

use grib_base::List;
use grib_bitmap::{Mask, write_mask};
use grib_bits::write_u8;
use grib_packing::{no_bitmap, octets_written, room_for, write_head};
use std::alloc::{AllocError, Global};

/// Section 6 of the points of a mask that has this many: its bits, or that no point is missing (WMO-No. 306,
/// Volume I.2, FM 92 GRIB edition 2, code table 6.0).
///
/// # Errors
///
/// There is no memory for the section.
pub fn mask_section(alloc: Global, mask: &Mask, present: u32) -> Result<List<u8>, AllocError>
    requires few { length mask.now ≤ 33554432 }
    requires present { present_count mask.now ≡ present }
    ensures { IfOk result (λ section. (points : List column_point.Point)
        → present_bits points ≡ mask.now → IsBitmap section points) }
{
    if present == mask.len() {
        Ok(no_bitmap(room_for(alloc, 6)?))
    } else {
        own_mask(alloc, mask)
    }
}

/// Section 6 with the bits of a mask.
fn own_mask(alloc: Global, mask: &Mask) -> Result<List<u8>, AllocError>
    requires { length mask.now ≤ 33554432 }
    ensures { IfOk result (λ section. HasContents 6 section (bits_of 8 0 ++ mask.now)) }
{
    let octets = 6 + mask.len().div_ceil(8);
    let mut room = room_for(alloc, octets)?;
    write_head(octets, 6, &mut room);
    write_u8(0, &mut room);
    write_mask(mask, &mut room);
    Ok(octets_written(room))
}
