//! Laws over the definitions.

ghost use Rattle.std.specs.Prelude.{◌≡◌, ℕ, ◌+◌, ◌*◌, ◌<◌, ◌≤◌, None, List, length};
ghost use Rattle.grib_base.specs.declared.code.Code as code_io;
ghost use Rattle.grib_packing.specs.declared.column.Column as column_packing;
ghost use Rattle.grib_packing.specs.Groupings.{Chosen};
ghost use Rattle.grib_packing.specs.Misfits.{Target, first_misfit};
ghost use Rattle.grib_packing.specs.Packed.{Packed as HasPacked};
ghost use Rattle.grib_packing.specs.Written.{IsTarget, MayBePacked};
ghost use Rattle.grib_packed.specs.Chosen.{chosen};
ghost use Rattle.grib_packed.specs.Written.{HasWords, packed};

/// The lengths that are found group by group are the chosen grouping, over all groupings.
pub fn lengths_are_chosen()
    ensures { (header : ℕ) (width : List code_io.Code → ℕ) (codes : List code_io.Code)
        → Chosen header width codes (chosen header width codes) }
{}

/// Where nothing of a column fails to fit, the sections of the function are those that packing has to write.
pub fn a_packing_is_written()
    ensures { (target : Target) (column : column_packing.Column) (kind : ℕ)
        → MayBePacked column → HasWords column → IsTarget target → kind < 256
        → first_misfit target column.points ≡ None
        → let p = packed target column kind in HasPacked target column kind p.section5 p.section6 p.section7 }
{}

/// No others are: sections that packing may write are those of the function.
pub fn one_packing_is_written()
    ensures { (target : Target) (column : column_packing.Column) (kind : ℕ) (s5 s6 s7 : List ℕ)
        → HasPacked target column kind s5 s6 s7
        → let p = packed target column kind in
        (s5 ≡ p.section5) × (s6 ≡ p.section6) × (s7 ≡ p.section7) }
{}

/// Where nothing of a column fails to fit, the three sections have at most 11 octets a point, and 300 more.
pub fn few_octets_are_written()
    ensures { (target : Target) (column : column_packing.Column) (kind : ℕ)
        → MayBePacked column → IsTarget target → first_misfit target column.points ≡ None
        → let p = packed target column kind in
        length p.section5 + length p.section6 + length p.section7 ≤ 11 * length column.points + 300 }
{}
