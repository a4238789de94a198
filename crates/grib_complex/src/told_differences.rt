//! What a column is packed by with spatial differencing. A column of one value, or wholly missing, is looked at
//! once.

ghost use Rattle.std.specs.Prelude.{◌≡◌, ◌⊎◌, ◌≤◌, length, None, false, MatchResult};
ghost use Rattle.std.specs.List.{list_any};
ghost use Rattle.grib_packing.specs.Entries.{is_out_of_range};
ghost use Rattle.grib_packing.specs.Misfits.{ToSpatial, first_misfit};
ghost use Rattle.grib_packing.specs.Written.{IsPackFault};
ghost use Rattle.grib_spatial.specs.Undoing.{read_with};
ghost use Rattle.grib_complex.specs.Constant.{DifferencesOf};
ghost use Rattle.grib_codes.specs.FieldCodes.{codes_in};

use crate::coding::management;
use crate::constant::Constant;
use crate::difference_coding::{codes_of_differences, differences_of};
use crate::differencing::are_out;
use grib_codes::FieldCodes;
use grib_packing::{PackFault, Point};
use grib_simple::common_point;
use grib_spatial::Differences;
use std::alloc::Global;

/// The differences of a column, the code of each of its points, and the missing value management.
#[derive(Debug, Drop)]
pub struct ToldDifferences {
    pub differences: Differences,
    pub codes: FieldCodes,
    pub management: u8,
}

/// What is told of these points.
///
/// # Errors
///
/// A first value, the minimum or a code of the differences has no place; or there is no memory.
pub fn told_by_differences(
    alloc: Global,
    points: &[Point],
    order: u8,
) -> Result<ToldDifferences, PackFault>
    requires order { (order ≡ 1) ⊎ (order ≡ 2) }
    requires some { 1 ≤ length points.now }
    requires few { length points.now ≤ 33554432 }
    requires within { list_any is_out_of_range points.now ≡ false }
    ensures { MatchResult result
        (λ told. (first_misfit (ToSpatial order) points.now ≡ None)
        × DifferencesOf order points.now (read_with order told.differences) (codes_in told.codes) told.management)
        (IsPackFault (first_misfit (ToSpatial order) points.now)) }
{
    if let Some(point) = common_point(points) {
        if let Some(told) = Constant::of(alloc, point, points.len() as u32, order) {
            return Ok(ToldDifferences {
                differences: told.differences,
                codes: FieldCodes::Same(told.code, points.len() as u32),
                management: told.management,
            });
        }
    }
    told_of_each(alloc, points, order)
}

/// What is told of points that are looked at one after another.
///
/// # Errors
///
/// A first value, the minimum or a code of the differences has no place; or there is no memory.
fn told_of_each(alloc: Global, points: &[Point], order: u8) -> Result<ToldDifferences, PackFault>
    requires order { (order ≡ 1) ⊎ (order ≡ 2) }
    requires few { length points.now ≤ 33554432 }
    requires within { list_any is_out_of_range points.now ≡ false }
    ensures { MatchResult result
        (λ told. (first_misfit (ToSpatial order) points.now ≡ None)
        × DifferencesOf order points.now (read_with order told.differences) (codes_in told.codes) told.management)
        (IsPackFault (first_misfit (ToSpatial order) points.now)) }
{
    let management = management(points);
    let differences = differences_of(alloc, points, order);
    if are_out(&differences) {
        return Err(PackFault::DifferenceRange);
    }
    let codes = codes_of_differences(alloc, points, order, differences.minimum, management)?;
    Ok(ToldDifferences {
        differences,
        codes: FieldCodes::Each(codes),
        management,
    })
}
