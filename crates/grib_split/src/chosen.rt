//! The chosen grouping as a whole.

ghost use Rattle.std.specs.Prelude.{◌≡◌, length, IfOk};
ghost use Rattle.grib_packing.specs.Groupings.{Chosen, width_of};
ghost use Rattle.grib_split.specs.Costs.{CanSplit, header_of};

use crate::choosing::{Costs, least_choices};
use crate::lengths::lengths_of;
use grib_codes::Codes;
use std::alloc::{AllocError, Global};

/// The lengths of the groups that are chosen for these codes: of the groupings into runs of 1 to 64 codes
/// that take the fewest bits, the first one.
///
/// # Errors
///
/// There is no memory for a choice for each code, or for the lengths.
pub fn chosen_lengths(
    alloc: Global,
    codes: &Codes<'_>,
    costs: &Costs,
) -> Result<Vec<u32>, AllocError>
    requires split { CanSplit costs.now codes.now }
    ensures { IfOk result (λ lengths.
        Chosen (header_of costs.now) (width_of costs.now.reserved) codes.now lengths.items) }
{
    let mut choices = vec![in alloc; 0u8; codes.len()]?;
    lengths_by(alloc, codes, costs, &mut choices)
}

/// The lengths of the groups that are chosen for these codes, with room for a choice for each code.
fn lengths_by(
    alloc: Global,
    codes: &Codes<'_>,
    costs: &Costs,
    choices: &mut [u8],
) -> Result<Vec<u32>, AllocError>
    requires split { CanSplit costs.now codes.now }
    requires room { length choices.old ≡ length codes.now }
    ensures { IfOk result (λ lengths.
        Chosen (header_of costs.now) (width_of costs.now.reserved) codes.now lengths.items) }
{
    least_choices(codes, costs, choices);
    lengths_of(alloc, choices)
}
