//! Simple packing.

ghost use Rattle.std.specs.Prelude.{refl};
ghost use Rattle.grib_packing.specs.Misfits.{ToSimple};

use crate::packed::pack_simply;
use grib_base::{ReadFault, Section};
use grib_bitmap::Mask;
use grib_packing::{Column, PackFault, Packed, Packing, numbers_of};
use grib_simple_reading::unpack_simple;
use std::alloc::Global;

/// Simple packing: the numbers of the present points stand one after another, each in as many bits
/// (WMO-No. 306, Volume I.2, FM 92 GRIB edition 2, templates 5.0 and 7.0).
#[derive(Clone, Copy, Debug, PartialEq, Eq)]
pub struct SimplePacking;

impl Packing for SimplePacking {
    ghost template = { λ _. 0 };

    ghost target = { λ _. ToSimple };

    fn unpack(
        &self,
        alloc: Global,
        section5: &Section<'_>,
        mask: &Mask,
        section7: &Section<'_>,
    ) -> Result<Column, ReadFault> {
        unpack_simple(alloc, &numbers_of(section5.octets), mask, section7)
    }

    fn pack(&self, alloc: Global, column: &Column, kind: u8) -> Result<Packed, PackFault> {
        pack_simply(alloc, column, kind)
    }

    ghost is_template = { λ _. refl };

    ghost is_target = { λ _. tt };
}
