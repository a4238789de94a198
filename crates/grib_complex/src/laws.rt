//! Laws over the definitions.

ghost use Rattle.std.specs.Prelude.{◌≡◌, ◌⊎◌, ℕ, None, List};
ghost use Rattle.grib_packing.specs.declared.column.Column as column_packing;
ghost use Rattle.grib_packing.specs.Misfits.{ToComplex, ToSpatial, first_misfit};
ghost use Rattle.grib_packing.specs.Packed.{Packed as HasPacked};
ghost use Rattle.grib_packing.specs.Laws.{UnpackTo};
ghost use Rattle.grib_packing.specs.Written.{MayBePacked};

use grib_groups::laws::what_is_written_reads_back;
use grib_spatial::laws::differences_tell_their_numbers;

/// What is packed in groups unpacks to the same column: where nothing of a column fails to fit, the
/// sections of complex packing are accepted, and their column is the one that was packed, under each of the
/// three managements.
pub fn what_is_packed_in_groups_reads_back()
    ensures { (column : column_packing.Column) (kind : ℕ) (s5 s6 s7 : List ℕ)
        → MayBePacked column → first_misfit ToComplex column.points ≡ None
        → HasPacked ToComplex column kind s5 s6 s7 → UnpackTo column s5 s6 s7 }
{
    what_is_written_reads_back();
}

/// What is packed by differences of order 1 or 2 unpacks to the same column: where nothing of a column fails
/// to fit, the sections of complex packing with spatial differencing are accepted, and their column is the one
/// that was packed, under each of the three managements.
pub fn what_is_packed_by_differences_reads_back()
    ensures { (order kind : ℕ) (column : column_packing.Column) (s5 s6 s7 : List ℕ)
        → (order ≡ 1) ⊎ (order ≡ 2) → MayBePacked column → first_misfit (ToSpatial order) column.points ≡ None
        → HasPacked (ToSpatial order) column kind s5 s6 s7 → UnpackTo column s5 s6 s7 }
{
    what_is_written_reads_back();
    differences_tell_their_numbers();
}
