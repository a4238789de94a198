//! Laws over the definitions.

ghost use Rattle.std.specs.Prelude.{◌≡◌, ℕ, List, Bool, None, length};
ghost use Rattle.grib_coding.specs.declared.coding.Coding as coding;
ghost use Rattle.grib_coding.specs.Coding.{Fits};
ghost use Rattle.grib_coding.specs.Reading.{decoded, fault_of};

/// Where no item is at fault, each of the values is told.
pub fn each_value_is_told()
    ensures { (c : coding.Coding) (count : ℕ) (bits : List Bool) → Fits c → fault_of (decoded c count bits) ≡ None
        → length (decoded c count bits).entries ≡ count }
{}
