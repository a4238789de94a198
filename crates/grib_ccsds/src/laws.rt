//! Laws over the definitions.

ghost use Rattle.std.specs.Prelude.{◌≡◌, ℕ, None, List};
ghost use Rattle.grib_packing.specs.declared.column.Column as column_packing;
ghost use Rattle.grib_packing.specs.Laws.{UnpackTo};
ghost use Rattle.grib_packing.specs.Misfits.{ToCoded, first_misfit};
ghost use Rattle.grib_packing.specs.Packed.{Packed as HasPacked};
ghost use Rattle.grib_packing.specs.Written.{IsBlocks, MayBePacked};

/// What is packed in blocks unpacks to the same column: where nothing of a column fails to fit, the sections of CCSDS
/// packing are accepted, and their column is the one that was packed.
pub fn what_is_packed_in_blocks_reads_back()
    ensures { (block interval : ℕ) (column : column_packing.Column) (kind : ℕ) (s5 s6 s7 : List ℕ)
        → MayBePacked column → IsBlocks block interval → first_misfit (ToCoded block interval) column.points ≡ None
        → HasPacked (ToCoded block interval) column kind s5 s6 s7 → UnpackTo column s5 s6 s7 }
{}
