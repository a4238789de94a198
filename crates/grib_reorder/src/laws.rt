//! Laws over the definitions.

ghost use Rattle.std.specs.Prelude.{◌≡◌, ◌≢◌, ℕ, ◌+◌, ◌*◌, ◌%◌, ◌<◌, ◌≤◌, List};
ghost use Rattle.grib_bits.specs.Octets.{octets};
ghost use Rattle.grib_base.specs.declared.profile.Profile.{Profile};
ghost use Rattle.grib2_message.specs.Fields.{field_count, part_octets, column_of};
ghost use Rattle.grib2_message.specs.Message.{IsMessageUnder};
ghost use Rattle.grib_rescan.specs.Scanning.{scanning_of, place};
ghost use Rattle.grib_rescan.specs.Points.{point, width, height};
ghost use Rattle.grib_rescan.specs.declared.points.Area.{Area as Rectangle};
ghost use Rattle.grib_rescan.specs.declared.bounds.Bounds.{Bounds as Limits};
ghost use Rattle.grib_rescan.specs.Bounds.{area_within};
ghost use Rattle.grib_reorder.specs.declared.edit.GridEdit.{GridEdit as Edit};
ghost use Rattle.grib_reorder.specs.declared.edit.GridEdit.TheVariants as edits;
ghost use Rattle.grib_reorder.specs.Rescanned.{section_of, edited_column, edited, MayBeEdited};

use grib_ccsds::laws::what_is_packed_in_blocks_reads_back;
use grib_complex::laws::{
    what_is_packed_by_differences_reads_back, what_is_packed_in_groups_reads_back,
};
use grib_packed::laws::a_packing_is_written;
use grib_simple::laws::what_is_packed_simply_reads_back;
use grib2_message::laws::{field_holds, what_is_assembled_with_other_grids_is_accepted};

/// Where nothing of a message that a profile accepts fails to fit, and its values can be read, the message in another order,
/// or that of a subarea, is accepted by that profile and has as many fields. Each field has the new Section 3 and the new column, with the same R, E
/// and D, and its Sections 1, 2 and 4 as they were.
pub fn what_is_edited_is_accepted()
    ensures accepted { (profile : Profile) (edit : Edit) (message : List ℕ) → MayBeEdited profile edit message → IsMessageUnder profile (edited edit message) }
    ensures fields { (profile : Profile) (edit : Edit) (message : List ℕ) → MayBeEdited profile edit message
        → field_count (edited edit message) ≡ field_count message }
    ensures columns { (profile : Profile) (edit : Edit) (message : List ℕ) → MayBeEdited profile edit message
        → (i : ℕ) → 1 ≤ i → i ≤ field_count message
        → column_of (edited edit message) i ≡ edited_column edit message i }
    ensures grids { (profile : Profile) (edit : Edit) (message : List ℕ) → MayBeEdited profile edit message
        → (i : ℕ) → 1 ≤ i → i ≤ field_count message
        → part_octets (edited edit message) i 3 ≡ section_of edit (part_octets message i 3) }
    ensures kept { (profile : Profile) (edit : Edit) (message : List ℕ) → MayBeEdited profile edit message
        → (i k : ℕ) → k ≤ 4 → k ≢ 3
        → part_octets (edited edit message) i k ≡ part_octets message i k }
{
    a_packing_is_written();
    what_is_packed_simply_reads_back();
    what_is_packed_in_groups_reads_back();
    what_is_packed_by_differences_reads_back();
    what_is_packed_in_blocks_reads_back();
    field_holds();
    what_is_assembled_with_other_grids_is_accepted();
}

/// Each entry of a field in the order of scanning octet 0 is the old one of its place, and R, E and D are the
/// same.
pub fn what_is_rescanned_keeps_each_value()
    ensures entries { (profile : Profile) (message : List ℕ) → MayBeEdited profile edits.Rescan message
        → (i : ℕ) → 1 ≤ i → i ≤ field_count message
        → let s = part_octets message i 3 in
        let ni = octets s 31 34 in
        let nj = octets s 35 38 in
        (n m : ℕ) → n < ni * nj → m < ni * nj
        → place (scanning_of 0) ni nj n ≡ place (scanning_of (octets s 72 72)) ni nj m
        → point (column_of (edited edits.Rescan message) i).points n ≡ point (column_of message i).points m }
    ensures reference { (profile : Profile) (message : List ℕ) → MayBeEdited profile edits.Rescan message
        → (i : ℕ) → 1 ≤ i → i ≤ field_count message
        → (column_of (edited edits.Rescan message) i).reference ≡ (column_of message i).reference }
    ensures binary_scale { (profile : Profile) (message : List ℕ) → MayBeEdited profile edits.Rescan message
        → (i : ℕ) → 1 ≤ i → i ≤ field_count message
        → (column_of (edited edits.Rescan message) i).e ≡ (column_of message i).e }
    ensures decimal_scale { (profile : Profile) (message : List ℕ) → MayBeEdited profile edits.Rescan message
        → (i : ℕ) → 1 ≤ i → i ≤ field_count message
        → (column_of (edited edits.Rescan message) i).d ≡ (column_of message i).d }
{
    what_is_edited_is_accepted();
}

/// The entry in column i and row j of a subarea is that in column i + i0 and row j + j0 of the field, where the first
/// column follows the last, and R, E and D are the same.
pub fn what_is_cropped_keeps_each_value()
    ensures entries { (profile : Profile) (area : Rectangle) (message : List ℕ) → MayBeEdited profile (edits.Crop area) message
        → (i : ℕ) → 1 ≤ i → i ≤ field_count message
        → (x y : ℕ) → x < width area → y < height area
        → point (column_of (edited (edits.Crop area) message) i).points (y * width area + x)
        ≡ point (column_of message i).points
        ((area.j0 + y) * octets (part_octets message i 3) 31 34 + (area.i0 + x) % octets (part_octets message i 3) 31 34) }
    ensures reference { (profile : Profile) (area : Rectangle) (message : List ℕ) → MayBeEdited profile (edits.Crop area) message
        → (i : ℕ) → 1 ≤ i → i ≤ field_count message
        → (column_of (edited (edits.Crop area) message) i).reference ≡ (column_of message i).reference }
    ensures binary_scale { (profile : Profile) (area : Rectangle) (message : List ℕ) → MayBeEdited profile (edits.Crop area) message
        → (i : ℕ) → 1 ≤ i → i ≤ field_count message
        → (column_of (edited (edits.Crop area) message) i).e ≡ (column_of message i).e }
    ensures decimal_scale { (profile : Profile) (area : Rectangle) (message : List ℕ) → MayBeEdited profile (edits.Crop area) message
        → (i : ℕ) → 1 ≤ i → i ≤ field_count message
        → (column_of (edited (edits.Crop area) message) i).d ≡ (column_of message i).d }
{
    what_is_edited_is_accepted();
}

/// So is each entry of what lies within bounds, whose subarea is that of the grid of the field.
pub fn what_lies_within_keeps_each_value()
    ensures entries { (profile : Profile) (bounds : Limits) (message : List ℕ) → MayBeEdited profile (edits.Within bounds) message
        → (i : ℕ) → 1 ≤ i → i ≤ field_count message
        → let s = part_octets message i 3 in
        let area = area_within bounds s in
        let ni = octets s 31 34 in
        (x y : ℕ) → x < width area → y < height area
        → point (column_of (edited (edits.Within bounds) message) i).points (y * width area + x)
        ≡ point (column_of message i).points ((area.j0 + y) * ni + (area.i0 + x) % ni) }
    ensures reference { (profile : Profile) (bounds : Limits) (message : List ℕ) → MayBeEdited profile (edits.Within bounds) message
        → (i : ℕ) → 1 ≤ i → i ≤ field_count message
        → (column_of (edited (edits.Within bounds) message) i).reference ≡ (column_of message i).reference }
    ensures binary_scale { (profile : Profile) (bounds : Limits) (message : List ℕ) → MayBeEdited profile (edits.Within bounds) message
        → (i : ℕ) → 1 ≤ i → i ≤ field_count message
        → (column_of (edited (edits.Within bounds) message) i).e ≡ (column_of message i).e }
    ensures decimal_scale { (profile : Profile) (bounds : Limits) (message : List ℕ) → MayBeEdited profile (edits.Within bounds) message
        → (i : ℕ) → 1 ≤ i → i ≤ field_count message
        → (column_of (edited (edits.Within bounds) message) i).d ≡ (column_of message i).d }
{
    what_is_edited_is_accepted();
}
