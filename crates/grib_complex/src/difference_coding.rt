//! The codes of the differences of a column. Beside the words of its codes no list is kept.

ghost use Rattle.std.specs.Prelude.{◌≡◌, ◌≤◌, false, length, nat_lt, cond, Some, None, MatchResult};
ghost use Rattle.std.specs.List.{list_any};
ghost use Rattle.grib_packing.specs.Differences.{descriptors_of, difference_codes, differences as differences_in, least};
ghost use Rattle.grib_packing.specs.Entries.{is_out_of_range};
ghost use Rattle.grib_packing.specs.Misfits.{DifferenceRange, ToSpatial, greatest_code, management_of, scaled_numbers as numbers_in};
ghost use Rattle.grib_packing.specs.Packed.{target_codes};
ghost use Rattle.grib_packing.specs.Written.{IsPackFault};
ghost use Rattle.grib_complex_reading.specs.Order.{IsOrder};
ghost use Rattle.grib_spatial.specs.Undoing.{read_with};

use grib_base::Code;
use grib_codes::{Words, word_of};
use grib_packing::{PackFault, Point};
use grib_spatial::{Differences, FirstAndLeast, Trail};
use std::alloc::Global;

/// What tells the differences of the points that are not missing, without their codes.
pub fn differences_of(alloc: Global, points: &[Point], order: u8) -> Differences
    requires order { IsOrder order }
    requires few { length points.now ≤ 33554432 }
    requires within { list_any is_out_of_range points.now ≡ false }
    ensures { read_with order result ≡ descriptors_of order (numbers_in points.now) }
{
    let mut told = FirstAndLeast::none();
    for point in points {
        if let Point::Scaled(x) = *point {
            told = told.and(order, x);
        }
    }
    told.differences(alloc)
}

/// The codes of the differences at the points that are not missing, how far each is above the least one, and
/// the marks of missing points.
///
/// # Errors
///
/// A code and the reserved codes take more than 32 bits; or there is no memory.
pub fn codes_of_differences(
    alloc: Global,
    points: &[Point],
    order: u8,
    minimum: i64,
    management: u8,
) -> Result<Words, PackFault>
    requires order { IsOrder order }
    requires few { length points.now ≤ 33554432 }
    requires within { list_any is_out_of_range points.now ≡ false }
    requires minimum { minimum ≡ least (differences_in order (numbers_in points.now)) }
    requires management { management ≡ management_of points.now }
    ensures { MatchResult result
        (λ codes. (list_any (λ code. nat_lt (greatest_code management) code) (difference_codes order (numbers_in points.now)) ≡ false)
        × (codes ≡ target_codes (ToSpatial order) points.now))
        (IsPackFault (cond (list_any (λ code. nat_lt (greatest_code management) code) (difference_codes order (numbers_in points.now)))
        (Some DifferenceRange) None)) }
{
    let greatest = u64::from(u32::MAX - u32::from(management));
    let mut words = Vec::with_capacity(alloc, points.len())?;
    let mut trail = Trail::none();
    for point in points {
        let code = match *point {
            Point::Scaled(x) => {
                let code = trail.code(order, x, minimum);
                if code > greatest {
                    return Err(PackFault::DifferenceRange);
                }
                trail = trail.and(x);
                Code::Present(code)
            }
            Point::Missing => Code::Primary,
            Point::Missing2 => Code::Secondary,
        };
        let Ok(()) = words.push(word_of(code)) else {
            return Err(PackFault::Memory);
        };
    }
    Ok(Words::of(words, management))
}
