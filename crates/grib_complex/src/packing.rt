//! Complex packing, with and without spatial differencing.

ghost use Rattle.std.specs.Prelude.{◌≡◌, ◌⊎◌, ℕ, refl, cond, None};
ghost use Rattle.grib_packing.specs.declared.column.Column as column_packing;
ghost use Rattle.grib_packing.specs.Misfits.{Target, ToComplex, ToSpatial};
ghost use Rattle.grib_packing.specs.Written.{IsPacked, order_known};
ghost use Rattle.grib_packing.specs.Below.{IsPackedBelow};

use crate::packed::{pack_complex, pack_spatial};
use crate::unpacking::unpack_complex;
use grib_base::{ReadFault, Section};
use grib_bitmap::Mask;
use grib_packing::{Column, PackFault, Packed, Packing};
use std::alloc::Global;

/// Complex packing: the numbers of the present points stand in groups, each with a reference and a
/// width, and may be missing (WMO-No. 306, Volume I.2, FM 92 GRIB edition 2, templates 5.2 and 7.2).
#[derive(Clone, Copy, Debug, PartialEq, Eq)]
pub struct ComplexPacking;

impl Packing for ComplexPacking {
    ghost template = { λ _. 2 };

    ghost target = { λ _. ToComplex };

    fn unpack(
        &self,
        alloc: Global,
        section5: &Section<'_>,
        mask: &Mask,
        section7: &Section<'_>,
    ) -> Result<Column, ReadFault> {
        unpack_complex(alloc, section5, mask, section7)
    }

    fn pack(&self, alloc: Global, column: &Column, kind: u8) -> Result<Packed, PackFault> {
        without_bound(pack_complex(alloc, column, kind, None))
    }

    ghost is_template = { λ _. refl };

    ghost is_target = { λ _. tt };
}

/// Complex packing of spatial differences: the groups hold what the differences of the numbers are
/// above the least one (WMO-No. 306, Volume I.2, FM 92 GRIB edition 2, templates 5.3 and 7.3). It unpacks
/// differences of either order.
#[derive(Clone, Copy, Debug, PartialEq, Eq)]
pub struct SpatialPacking {
    /// Whether it packs differences of order 2, and not of order 1 (code table 5.6).
    second: bool,
}

impl SpatialPacking {
    /// Packing by differences of this order (code table 5.6).
    pub fn new(order: u8) -> SpatialPacking
        requires { (order ≡ 1) ⊎ (order ≡ 2) }
        ensures { cond result.second 2 1 ≡ order }
    {
        SpatialPacking { second: order == 2 }
    }

    /// The order of the differences that it packs.
    fn order(self) -> u8
        ensures { result ≡ cond self.second 2 1 }
    {
        if self.second { 2 } else { 1 }
    }
}

impl Packing for SpatialPacking {
    ghost template = { λ _. 3 };

    ghost target = { λ packing. ToSpatial (cond packing.second 2 1) };

    fn unpack(
        &self,
        alloc: Global,
        section5: &Section<'_>,
        mask: &Mask,
        section7: &Section<'_>,
    ) -> Result<Column, ReadFault> {
        unpack_complex(alloc, section5, mask, section7)
    }

    fn pack(&self, alloc: Global, column: &Column, kind: u8) -> Result<Packed, PackFault> {
        without_bound(pack_spatial(alloc, column, kind, self.order(), None))
    }

    ghost is_template = { λ _. refl };

    ghost is_target = { λ packing. order_known packing.second };
}

/// What is packed where there is no bound.
fn without_bound(found: Result<Option<Packed>, PackFault>) -> Result<Packed, PackFault>
    requires { (target : Target) × (column : column_packing.Column) × (kind : ℕ) × IsPackedBelow target column kind None found }
    ensures { (target : Target) (column : column_packing.Column) (kind : ℕ) → IsPackedBelow target column kind None found
        → IsPacked target column kind result }
{
    match found {
        Ok(Some(packed)) => Ok(packed),
        Ok(None) => unreachable!(),
        Err(fault) => Err(fault),
    }
}
