//! Laws over the definitions.

ghost use Rattle.std.specs.Prelude.{◌≡◌, ℕ, List, false, None};
ghost use Rattle.grib_base.specs.declared.profile.Profile.TheVariants.{Stated, Open};
ghost use Rattle.grib_base.specs.Rules.{first_fault};
ghost use Rattle.grib2_grids.specs.Opaque.{is_opaque_grid, grid_rules_under};
ghost use Rattle.grib2_grids.specs.Spelled.{Spelled, IsSectionOf};
ghost use Rattle.grib2_grids.specs.Writable.{IsWritable};
ghost use Rattle.grib2_grids.specs.declared.grid.GridSection.{GridSection};

/// The octets of a section tell its value: what is written from a value and read again is that value.
pub fn a_section_has_one_value()
    ensures { (value other : GridSection) (s : List ℕ)
        → Spelled value s → Spelled other s → value ≡ other }
{}

/// A value that a section has which is accepted, as `read_grid` answers it, can be written.
pub fn what_is_read_can_be_written()
    ensures { (value : GridSection) (s : List ℕ) → IsSectionOf value s → IsWritable value }
{}

/// What the stated profile accepts, the open one accepts.
pub fn the_open_profile_accepts_what_is_stated()
    ensures { (s : List ℕ) → first_fault (grid_rules_under Stated s) ≡ None
        → first_fault (grid_rules_under Open s) ≡ None }
{}

/// Where the grid is not opaque, both profiles have the same rules.
pub fn profiles_differ_in_opaque_grids_alone()
    ensures { (s : List ℕ) → is_opaque_grid s ≡ false
        → grid_rules_under Open s ≡ grid_rules_under Stated s }
{}
