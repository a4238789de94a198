//! Messages of edition 1.

ghost use Rattle.std.specs.Prelude.{◌≡◌, ◌≤◌, length, IfOk};
ghost use Rattle.grib1_sections.specs.Acceptance as definitions;
ghost use Rattle.grib1_sections.specs.Column.{column1_of};
ghost use Rattle.grib_decimal.specs.Summary.{summary_of};

use crate::keeping::Tallying;
use crate::placing::placed;
use grib_base::MOST_POINTS;
use grib_bitmap::Mask;
use grib_bits::{u8_at, uint_at};
use grib_complex::take_numbers;
use grib_decimal::Summary;
use grib1_sections::Message1;
use std::alloc::{AllocError, Global};

/// The summary of the points of a message. No column is made.
///
/// # Errors
///
/// There is no memory for the mask.
pub fn message_sums1(alloc: Global, message: &Message1<'_>) -> Result<Summary, AllocError>
    ensures { IfOk result (λ sums. sums ≡ summary_of (column1_of message.now).points) }
{
    let mask = mask_of(alloc, message)?;
    let Some(section4) = message.section(4) else {
        unreachable!();
    };
    let bits = u8_at(section4, 11);
    let numbers = &section4[11..uint_at(section4, 1, 3) as usize];
    let summed = take_numbers(alloc, numbers, bits, message.values(), Tallying::start());
    Ok(placed(summed.finish(), &mask))
}

/// Which grid points of a message have a value.
fn mask_of(alloc: Global, message: &Message1<'_>) -> Result<Mask, AllocError>
    ensures mask { IfOk result (λ mask. mask ≡ definitions.mask message.now) }
    ensures few { IfOk result (λ mask. length mask ≤ MOST_POINTS) }
{
    match message.section(3) {
        None => Mask::all(alloc, message.points()),
        Some(section3) => Mask::of_octets(alloc, &section3[6..], message.points()),
    }
}
