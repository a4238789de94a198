//! The values of a field whose numbers are the scaled integers themselves, all of one width.

ghost use Rattle.std.specs.Prelude.{◌*◌, ◌^◌, ◌<◌, ◌≤◌, length, map, pos};
ghost use Rattle.grib_bits.specs.Bits.{bits as bits_in};
ghost use Rattle.grib_bits.specs.Plain.{plain};
ghost use Rattle.grib_packing.specs.declared.column.Point.TheVariants.{Scaled};

use crate::values::PlainValues;
use grib_group_reading::Fed;
use grib_packing::Keeper;
use std::alloc::Global;

/// Hands the points of the first `count` numbers of `bits` bits each on, which stand one after another from the
/// first bit of `octets` on (WMO-No. 306, Volume I.2, FM 92 GRIB edition 2, data template 7.0).
pub fn take_numbers<K: Keeper>(alloc: Global, octets: &[u8], bits: u8, count: u32, keeper: K) -> K
    requires width { bits ≤ 48 }
    requires within { count * bits ≤ 8 * length octets.now }
    requires short { length octets.now < 2 ^ 32 }
    ensures { K.kept keeper (map (λ x. Scaled (pos x)) (plain (bits_in octets.now) bits count)) result }
{
    let values = PlainValues { keeper };
    Fed::list(alloc, bits, count, values)
        .push(octets)
        .finish()
        .keeper
}
