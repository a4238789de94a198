//! Laws over the definitions.

ghost use Rattle.std.specs.Prelude.{◌≡◌, ℕ, List, None, true};
ghost use Rattle.grib_base.specs.declared.profile.Profile.TheVariants.{Stated, Open};
ghost use Rattle.grib_packing.specs.Entries.{is_stated_packing, packing_fault_under};

/// What the stated profile accepts of a Section 5, the open one accepts. Where the stated profile has the packing, both
/// have the same rules.
pub fn the_open_profile_accepts_more()
    ensures accepts { (s : List ℕ) (points : ℕ) → packing_fault_under Stated s points ≡ None
        → packing_fault_under Open s points ≡ None }
    ensures same { (s : List ℕ) (points : ℕ) → is_stated_packing s ≡ true
        → packing_fault_under Open s points ≡ packing_fault_under Stated s points }
{}
