//! Numbers of whole octets that stand one after another.

ghost use Rattle.std.specs.Prelude.{◌≡◌, ℕ, ◌+◌, ◌*◌, ◌^◌, ◌<◌, ◌≤◌, length, slice_index, vec_len, IfOk, IsOk};
ghost use Rattle.grib_bits.specs.Encoding.{AddsOctets};
ghost use Rattle.grib_bits.specs.Listed.{numbers_at, numbers_octets};

use crate::number::write_number;
use crate::reading::uint_at;
use crate::writer::BitWriter;
use std::alloc::{AllocError, Global};

/// The `count` numbers of `size` octets each from octet `first` on, counted from 1. The memory for them
/// is taken once; for none, none is.
///
/// # Errors
///
/// There is no memory for the numbers.
pub fn read_list(
    alloc: Global,
    octets: &[u8],
    first: usize,
    size: usize,
    count: usize,
) -> Result<Vec<u32>, AllocError>
    requires counted { 1 ≤ first }
    requires some { 1 ≤ size }
    requires word { size ≤ 4 }
    requires within { first + count * size ≤ length octets.now + 1 }
    ensures numbers { IfOk result (λ numbers. numbers.items ≡ numbers_at octets.now first size count) }
    ensures count { IfOk result (λ numbers. vec_len numbers ≡ count) }
    ensures memory { count ≡ 0 → IsOk result }
{
    let mut numbers = Vec::new(alloc);
    if count == 0 {
        return Ok(numbers);
    }
    numbers.reserve(count)?;
    for index in 0..count {
        numbers.push(uint_at(octets, first + index * size, size))?;
    }
    Ok(numbers)
}

/// Writes the numbers one after another, with `size` octets for each.
pub fn write_list(numbers: &[u32], size: u32, out: &mut BitWriter)
    requires word { size ≤ 4 }
    requires fit { (k : ℕ) → k < length numbers.now → slice_index numbers.now k < 256 ^ size }
    requires room { 8 * (size * length numbers.now) ≤ out.old.spare }
    ensures { AddsOctets out.old out.new (numbers_octets size numbers.now) }
{
    for number in numbers {
        write_number(u64::from(*number), size, out);
    }
}
