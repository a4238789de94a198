//! CCSDS packing.

ghost use Rattle.std.specs.Prelude.{◌≡◌, ◌≤◌, true, refl};
ghost use Rattle.grib_packing.specs.Coded.{is_block};
ghost use Rattle.grib_packing.specs.Misfits.{ToCoded};
ghost use Rattle.grib_packing.specs.Written.{IsBlocks};
ghost use Rattle.grib_ccsds.specs.Blocks.{blocks_known};

use crate::packed::pack_coded;
use crate::unpacking::unpack_coded;
use grib_base::{ReadFault, Section};
use grib_bitmap::Mask;
use grib_packing::{Column, PackFault, Packed, Packing};
use std::alloc::Global;

/// CCSDS packing: the numbers of the present points stand in blocks, each coded in the way that takes the fewest bits
/// (WMO-No. 306, Volume I.2, FM 92 GRIB edition 2, templates 5.42 and 7.42; CCSDS 121.0-B). It unpacks fields that
/// others packed too.
#[derive(Clone, Copy, Debug, PartialEq, Eq)]
pub struct CodedPacking {
    /// The values of a block that it packs: 8, 16, 32 or 64.
    block: u8,
    /// The blocks from one reference to the next that it packs: 1 to 4,096.
    interval: u16,
    ghost known: { is_block block ≡ true },
    ghost some: { 1 ≤ interval },
    ghost most: { interval ≤ 4096 },
}

impl CodedPacking {
    /// Packing in blocks of this many values, with this many blocks from one reference to the next.
    pub fn new(block: u8, interval: u16) -> CodedPacking
        requires { IsBlocks block interval }
        ensures block { result.block ≡ block }
        ensures interval { result.interval ≡ interval }
    {
        CodedPacking { block, interval }
    }
}

impl Packing for CodedPacking {
    ghost template = { λ _. 42 };

    ghost target = { λ packing. ToCoded packing.block packing.interval };

    fn unpack(
        &self,
        alloc: Global,
        section5: &Section<'_>,
        mask: &Mask,
        section7: &Section<'_>,
    ) -> Result<Column, ReadFault> {
        unpack_coded(alloc, section5, mask, section7)
    }

    fn pack(&self, alloc: Global, column: &Column, kind: u8) -> Result<Packed, PackFault> {
        pack_coded(alloc, column, kind, self.block, self.interval)
    }

    ghost is_template = { λ _. refl };

    ghost is_target = { λ packing. blocks_known packing.block packing.interval packing.known packing.some packing.most };
}
