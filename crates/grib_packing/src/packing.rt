//! What each packing of the numbers of a field offers.

ghost use Rattle.std.specs.Prelude.{◌≡◌, ℕ};
ghost use Rattle.grib_packing.specs.Misfits.{Target, template_of};
ghost use Rattle.grib_packing.specs.Unpacked.{IsUnpacked, MayBeUnpacked};
ghost use Rattle.grib_packing.specs.Written.{IsPacked, IsTarget, MayBePacked};

use crate::{Column, PackFault, Packed};
use grib_base::{ReadFault, Section};
use grib_bitmap::Mask;
use std::alloc::Global;

/// A packing of the numbers of a field (WMO-No. 306, Volume I.2, FM 92 GRIB edition 2, code table 5.0). It
/// unpacks what it packs, and other fields in its template.
pub trait Packing {
    // the number of its data representation template
    ghost template: { Self → ℕ };
    // what it packs to
    ghost target: { Self → Target };

    /// The column of a field, from its Section 5, which is accepted and has this packing's template, its
    /// mask, in which as many points are present as Section 5 has values, and its Section 7.
    ///
    /// # Errors
    ///
    /// Section 7 is refused by the first rule of the profile that fails, or there is no memory.
    fn unpack(
        &self,
        alloc: Global,
        section5: &Section<'_>,
        mask: &Mask,
        section7: &Section<'_>,
    ) -> Result<Column, ReadFault>
        requires { MayBeUnpacked (template self.now) section5.now.octets.now mask.now }
        ensures { IsUnpacked section5.now.octets.now mask.now section7.now.start section7.now.octets.now result };

    /// Sections 5, 6 and 7 of a column, whose original values were of the type `kind` (code table 5.1).
    /// It takes the memory of the sections before it writes their first octet.
    ///
    /// # Errors
    ///
    /// Something of the column does not fit the packing, the first misfit being named, or there is no
    /// memory.
    fn pack(&self, alloc: Global, column: &Column, kind: u8) -> Result<Packed, PackFault>
        requires { MayBePacked column.now }
        ensures { IsPacked (target self.now) column.now kind result };

    // the template is that of what it packs to
    ghost is_template: { (packing : Self) → template packing ≡ template_of (target packing) };
    // what it packs to is one of the packings
    ghost is_target: { (packing : Self) → IsTarget (target packing) };
}
