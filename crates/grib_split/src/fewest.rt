//! The groups of codes that take no bits, as where all codes are the same.

ghost use Rattle.std.specs.Prelude.{◌≡◌, ℕ, ◌≤◌, List, length, IfOk};
ghost use Rattle.grib_base.specs.declared.code.Code as code_io;
ghost use Rattle.grib_packing.specs.Groupings.{Chosen};
ghost use Rattle.grib_split.specs.Fewest.{TakesNone, fewest};

use std::alloc::{AllocError, Global};

/// The lengths of the groups that are chosen for `count` codes of which no run takes a bit: as few groups
/// as there can be, of 64 codes each but the first.
///
/// # Errors
///
/// There is no memory for the lengths.
pub fn fewest_lengths(alloc: Global, count: u32) -> Result<Vec<u32>, AllocError>
    requires some { 1 ≤ count }
    ensures is { IfOk result (λ lengths. lengths.items ≡ fewest count) }
    ensures chosen { IfOk result (λ lengths. (header : ℕ) (width : List code_io.Code → ℕ) (codes : List code_io.Code)
        → length codes ≡ count → 1 ≤ header → TakesNone width codes → Chosen header width codes lengths.items) }
{
    let more = (count - 1) / 64;
    let mut lengths = Vec::with_capacity(alloc, more as usize + 1)?;
    lengths.push((count - 1) % 64 + 1)?;
    for _group in 0..more {
        lengths.push(64)?;
    }
    Ok(lengths)
}
