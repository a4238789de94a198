//! Fields of messages of edition 2.

ghost use Rattle.std.specs.Prelude.{◌≡◌, ◌≤◌, IfOk};
ghost use Rattle.grib2_message.specs.Fields.{field_count, column_of};
ghost use Rattle.grib_decimal.specs.Summary.{summary_of};

use crate::keeping::Tallying;
use crate::placing::placed;
use grib_decimal::Summary;
use grib2_message::ReadableMessage;
use std::alloc::{AllocError, Global};

/// The summary of the points of a field. Fields count from 1. No column is made.
///
/// # Errors
///
/// There is no memory for the mask or the groups of the field.
pub fn field_sums(
    alloc: Global,
    message: &ReadableMessage<'_>,
    field: u32,
) -> Result<Summary, AllocError>
    requires first { 1 ≤ field }
    requires last { field ≤ field_count message.now }
    ensures { IfOk result (λ sums. sums ≡ summary_of (column_of message.now field).points) }
{
    let mask = message.mask(alloc, field)?;
    let summed = message.take_values(alloc, field, Tallying::start())?;
    Ok(placed(summed.finish(), &mask))
}
