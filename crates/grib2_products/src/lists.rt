//! The lists of time ranges and of coordinate values.

ghost use Rattle.std.specs.Prelude.{◌≡◌, ◌+◌, ◌*◌, ◌≤◌, length, IfOk, IsOk};
ghost use Rattle.grib2_products.specs.Product.{coordinate_count};
ghost use Rattle.grib2_products.specs.Whole.{IsWhole};
ghost use Rattle.grib2_products.specs.Spelled.{spec_at, specs_at, coordinate_list};

use crate::Spec;
use crate::rules::coordinate_start;
use grib_bits::{read_list, u8_at, u16_at, u32_at};
use std::alloc::{AllocError, Global};

/// The `count` time ranges from octet `first` on. The memory is taken once; for none, none is.
pub(crate) fn read_specs(
    alloc: Global,
    octets: &[u8],
    first: usize,
    count: u8,
) -> Result<Vec<Spec>, AllocError>
    requires counted { 1 ≤ first }
    requires within { first + 12 * count ≤ length octets.now + 1 }
    ensures specs { IfOk result (λ specs. specs.items ≡ specs_at octets.now first count) }
    ensures memory { count ≡ 0 → IsOk result }
{
    let mut specs = Vec::new(alloc);
    if count == 0 {
        return Ok(specs);
    }
    specs.reserve(usize::from(count))?;
    for k in 0..usize::from(count) {
        specs.push(read_spec(octets, first + 12 * k))?;
    }
    Ok(specs)
}

/// The time range in the 12 octets from `first` on.
fn read_spec(octets: &[u8], first: usize) -> Spec
    requires counted { 1 ≤ first }
    requires within { first + 11 ≤ length octets.now }
    ensures { result ≡ spec_at octets.now first }
{
    Spec {
        process: u8_at(octets, first),
        increment_type: u8_at(octets, first + 1),
        unit: u8_at(octets, first + 2),
        length: u32_at(octets, first + 3),
        increment_unit: u8_at(octets, first + 7),
        increment: u32_at(octets, first + 8),
    }
}

/// The coordinate values.
pub(crate) fn read_coordinates(alloc: Global, octets: &[u8]) -> Result<Vec<u32>, AllocError>
    requires { IsWhole octets.now }
    ensures coordinates { IfOk result (λ words. words.items ≡ coordinate_list octets.now) }
    ensures memory { coordinate_count octets.now ≡ 0 → IsOk result }
{
    let count = u16_at(octets, 6);
    read_list(
        alloc,
        octets,
        coordinate_start(octets),
        4,
        usize::from(count),
    )
}
