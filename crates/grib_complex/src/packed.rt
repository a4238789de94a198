//! Columns that are packed in groups.

ghost use Rattle.std.specs.Prelude.{◌≡◌, ◌⊎◌, ◌≤◌, All, IfOk, List, Ok, length};
ghost use Rattle.grib_packing.specs.declared.column.Column as column_packing;
ghost use Rattle.grib_packing.specs.declared.column.Point as point_packing;
ghost use Rattle.grib_packing.specs.Misfits.{ToComplex, ToSpatial};
ghost use Rattle.grib_packing.specs.Packed.{IsComplex, IsSpatial};
ghost use Rattle.grib_spatial.specs.Undoing.{read_with};
ghost use Rattle.grib_codes.specs.Span.{IsTold};
ghost use Rattle.grib_complex.specs.Constant.{DifferencesOf};
ghost use Rattle.grib_codes.specs.FieldCodes.{codes_in, HasCodes};
ghost use Rattle.grib_packing.specs.Below.{IsPackedBelow};
ghost use Rattle.grib_codes.specs.KeptWords.{TellPoints};
ghost use Rattle.grib_packing.specs.Written.{MayBePacked};

use crate::below::are_too_many;
use crate::coding::first_outside;
use crate::differencing::{descriptor_octets, write_descriptors};
use crate::grouping::{grouping_of, octets_of_groups};
use crate::told_differences::{ToldDifferences, told_by_differences};
use crate::writing::{
    Differencing, complex_representation, groups_section, spatial_representation,
};
use grib_codes::{FieldCodes, PointWords, ToldCodes};
use grib_packing::{Column, PackFault, Packed, no_bitmap, room_for, write_head};
use std::alloc::{AllocError, Global};

/// The octets of Sections 5 and 6 of template 5.2, and of Section 7 before its groups.
const BESIDE_GROUPS: u32 = 47 + 6 + 5;

/// The octets of Sections 5 and 6 of template 5.3, and of Section 7 before its extra descriptors.
const BESIDE_DIFFERENCES: u32 = 49 + 6 + 5;

/// Sections 5, 6 and 7 of a column: its scaled integers and missing points in the groups of 1 to 64
/// points that take the fewest bits; none where a quick look shows that they have `below` octets or more. `kind`
/// is the type of the original values (code table 5.1).
///
/// # Errors
///
/// A scaled integer is negative, or it and the reserved codes take more than 32 bits; or there is
/// no memory.
pub fn pack_complex(
    alloc: Global,
    column: &Column,
    kind: u8,
    below: Option<u64>,
) -> Result<Option<Packed>, PackFault>
    requires { MayBePacked column.now }
    ensures { IsPackedBelow ToComplex column.now kind below result }
{
    let points = column.points.as_slice();
    let Some(told) = PointWords::of(alloc, points)?.told() else {
        return Err(PackFault::OutOfRange(first_outside(points)));
    };
    Ok(pack_codes(alloc, column, kind, &told, below)?)
}

/// Sections 5, 6 and 7 of a field whose points have these codes; none where a quick look shows that they have `below`
/// octets or more. Of the column only R, E and D are looked at.
///
/// # Errors
///
/// There is no memory.
pub fn pack_codes(
    alloc: Global,
    column: &Column,
    kind: u8,
    told: &ToldCodes,
    below: Option<u64>,
) -> Result<Option<Packed>, AllocError>
    requires some { 1 ≤ length (codes_in told.now.codes) }
    requires most { length (codes_in told.now.codes) ≤ 33554432 }
    requires points { (points : List point_packing.Point) × TellPoints points told.now.management (codes_in told.now.codes) }
    ensures { IfOk result (λ found. (field : column_packing.Column)
        → field.reference ≡ column.now.reference → field.e ≡ column.now.e → field.d ≡ column.now.d
        → TellPoints field.points told.now.management (codes_in told.now.codes)
        → IsPackedBelow ToComplex field kind below (Ok found)) }
{
    if are_too_many(&told.codes, told.management, BESIDE_GROUPS, below) {
        return Ok(None);
    }
    let packed = pack_plainly(alloc, column, kind, &told.codes, told.management)?;
    Ok(Some(packed))
}

/// The sections of a column whose points have these codes. Of the column only R, E and D are looked at.
///
/// # Errors
///
/// There is no memory.
fn pack_plainly(
    alloc: Global,
    column: &Column,
    kind: u8,
    codes: &FieldCodes,
    management: u8,
) -> Result<Packed, AllocError>
    requires some { 1 ≤ length (codes_in codes.now) }
    requires most { length (codes_in codes.now) ≤ 33554432 }
    requires few { management ≤ 2 }
    requires told { All (IsTold management) (codes_in codes.now) }
    ensures { IfOk result (λ packed. (field : column_packing.Column)
        → field.reference ≡ column.now.reference → field.e ≡ column.now.e → field.d ≡ column.now.d
        → HasCodes field management (codes_in codes.now)
        → IsComplex field kind packed.section5 packed.section6 packed.section7) }
{
    let grouping = grouping_of(alloc, codes, management)?;
    let layout = &grouping.layout;
    let octets = 5 + octets_of_groups(codes, &grouping.lengths, &grouping.measures, layout);
    let section5 = room_for(alloc, 47)?;
    let section6 = room_for(alloc, 6)?;
    let mut section7 = room_for(alloc, octets)?;
    write_head(octets, 7, &mut section7);
    let values = codes.count();
    Ok(Packed {
        section5: complex_representation(column, values, layout, kind, section5),
        section6: no_bitmap(section6),
        section7: groups_section(
            codes,
            &grouping.lengths,
            &grouping.measures,
            layout,
            section7,
        ),
    })
}

/// Sections 5, 6 and 7 of a column: how far the differences of its scaled integers are above the
/// least one, and its missing points, in the groups of 1 to 64 points that take the fewest bits;
/// none where a quick look shows that they have `below` octets or more. `kind` is the type of the
/// original values (code table 5.1).
///
/// # Errors
///
/// A first value, the minimum or a code of the differences has no place; or there is no memory.
pub fn pack_spatial(
    alloc: Global,
    column: &Column,
    kind: u8,
    order: u8,
    below: Option<u64>,
) -> Result<Option<Packed>, PackFault>
    requires order { (order ≡ 1) ⊎ (order ≡ 2) }
    requires column { MayBePacked column.now }
    ensures { IsPackedBelow (ToSpatial order) column.now kind below result }
{
    let told = told_by_differences(alloc, column.points.as_slice(), order)?;
    let size = descriptor_octets(&told.differences);
    let beside = BESIDE_DIFFERENCES + (u32::from(order) + 1) * u32::from(size);
    if are_too_many(&told.codes, told.management, beside, below) {
        return Ok(None);
    }
    let packed = pack_spatially(alloc, column, kind, &told, order)?;
    Ok(Some(packed))
}

/// The sections of a column of which this is told.
///
/// # Errors
///
/// There is no memory.
fn pack_spatially(
    alloc: Global,
    column: &Column,
    kind: u8,
    told: &ToldDifferences,
    order: u8,
) -> Result<Packed, AllocError>
    requires order { (order ≡ 1) ⊎ (order ≡ 2) }
    requires column { MayBePacked column.now }
    requires told { DifferencesOf order column.now.points (read_with order told.now.differences) (codes_in told.now.codes) told.now.management }
    ensures { IfOk result (λ packed.
        IsSpatial order column.now kind packed.section5 packed.section6 packed.section7) }
{
    let codes = &told.codes;
    let grouping = grouping_of(alloc, codes, told.management)?;
    let size = descriptor_octets(&told.differences);
    let descriptors = (u32::from(order) + 1) * u32::from(size);
    let layout = &grouping.layout;
    let groups = octets_of_groups(codes, &grouping.lengths, &grouping.measures, layout);
    let octets = 5 + descriptors + groups;
    let section5 = room_for(alloc, 49)?;
    let section6 = room_for(alloc, 6)?;
    let mut section7 = room_for(alloc, octets)?;
    write_head(octets, 7, &mut section7);
    write_descriptors(&told.differences, order, size, &mut section7);
    let values = codes.count();
    let differencing = Differencing { order, size };
    Ok(Packed {
        section5: spatial_representation(column, values, layout, differencing, kind, section5),
        section6: no_bitmap(section6),
        section7: groups_section(
            codes,
            &grouping.lengths,
            &grouping.measures,
            layout,
            section7,
        ),
    })
}
