//! The column of a field in another order, and that of a subarea.

ghost use Rattle.std.specs.Prelude.{◌≡◌, ◌*◌, length, IfOk};
ghost use Rattle.grib_rescan.specs.Points.{IsBox, rescanned_column, cropped_column};

use crate::points::{Area, crop_points, rescan_points};
use crate::scanning::Scanning;
use crate::source::Listed;
use grib_base::List;
use grib_packing::Column;
use std::alloc::{AllocError, Global};

/// The column of a field of `ni` columns and `nj` rows in the order of scanning octet 0: each point with its
/// exact number or its missing value, and the same R, E and D.
///
/// # Errors
///
/// There is no memory for it.
pub fn rescan_column(
    alloc: Global,
    column: Column,
    scanning: Scanning,
    ni: u32,
    nj: u32,
) -> Result<Column, AllocError>
    requires { length column.points ≡ ni * nj }
    ensures { IfOk result (λ rescanned. rescanned ≡ rescanned_column scanning ni nj column) }
{
    let Column {
        reference,
        e,
        d,
        points,
    } = column;
    let points = rescan_points(alloc, points.into_vec(), scanning, ni, nj)?;
    Ok(Column {
        reference,
        e,
        d,
        points: List::of(points),
    })
}

/// The column of a subarea of a field of `ni` columns and `nj` rows, whose points are in the order of scanning
/// octet 0: each point with its exact number or its missing value, and the same R, E and D.
///
/// # Errors
///
/// There is no memory for it.
pub fn crop_column(
    alloc: Global,
    column: &Column,
    ni: u32,
    nj: u32,
    area: &Area,
) -> Result<Column, AllocError>
    requires length { length column.now.points ≡ ni * nj }
    requires within { IsBox area.now ni nj }
    ensures { IfOk result (λ cropped. cropped ≡ cropped_column area.now ni nj column.now) }
{
    let points = column.points.as_slice();
    let points = crop_points(alloc, &Listed { points }, ni, nj, area)?;
    Ok(Column {
        reference: column.reference,
        e: column.e,
        d: column.d,
        points: List::of(points),
    })
}
