//! Laws over the definitions.

ghost use Rattle.std.specs.Prelude.{◌≡◌, ℕ, ◌-◌, ◌*◌, ◌≤◌, ◌*ℤ◌, ◌+ℤ◌, ◌≤ℤ◌, List, [], ◌∷◌, pos, neg_ℤ, Some, None, codes};
ghost use Rattle.grib_bits.specs.Octets.{octets, signed_octets};
ghost use Rattle.grib_base.specs.Rules.{first_fault};
ghost use Rattle.grib_base.specs.declared.profile.Profile.{Profile};
ghost use Rattle.grib2_grids.specs.Opaque.{grid_rules_under};
ghost use Rattle.grib_rescan.specs.Sections.{HasPoints, HasTemplate};
ghost use Rattle.grib_places.specs.declared.cause.PlaceCause.TheVariants.{GridKind, ScanMode};
ghost use Rattle.grib_rescan.specs.Worked.{grid, north, south, west, east};
ghost use Rattle.grib_places.specs.declared.coordinate.Coordinate.{Coordinate as Told};
ghost use Rattle.grib_places.specs.declared.coordinate.Coordinate.TheVariants.{Latitude, Longitude};
ghost use Rattle.grib_places.specs.Degrees.{degrees_text};
ghost use Rattle.grib_places.specs.Places.{place_cause_of, parts_of, first_of, way_of, count_of, degrees_at};
ghost use Rattle.grib_places.specs.Worked.{few, before_greenwich, half, one, minus_one, words_of, micros_of, with_angle};

use grib_rescan::laws::what_has_no_cause;

/// The first point of a column or a row is told, and so is the last. Where the first latitude is the northernmost, as it is where
/// points of a column go southward, no step leads to the north.
pub fn what_is_told_is_kept()
    ensures first { (coordinate : Told) (s : List ℕ)
        → (degrees_at coordinate s 0).number ≡ first_of coordinate s *ℤ pos (parts_of (count_of coordinate s)) }
    ensures last { (coordinate : Told) (s : List ℕ) → 2 ≤ count_of coordinate s
        → (degrees_at coordinate s (count_of coordinate s - 1)).number
        ≡ (first_of coordinate s +ℤ way_of coordinate s) *ℤ pos (parts_of (count_of coordinate s)) }
    ensures southward { (s : List ℕ) (j k : ℕ) → signed_octets s 56 59 ≤ℤ signed_octets s 47 50 → j ≤ k
        → (degrees_at Latitude s k).number ≤ℤ (degrees_at Latitude s j).number }
{}

/// What is known where no row of a profile refuses a Section 3, and its places are told: it has its points.
pub fn what_has_places()
    ensures template { (profile : Profile) (s : List ℕ) → first_fault (grid_rules_under profile s) ≡ None → HasTemplate s }
    ensures points { (profile : Profile) (s : List ℕ) → first_fault (grid_rules_under profile s) ≡ None
        → place_cause_of s ≡ None → HasPoints s }
    ensures product { (profile : Profile) (s : List ℕ) → first_fault (grid_rules_under profile s) ≡ None
        → place_cause_of s ≡ None → octets s 31 34 * octets s 35 38 ≡ octets s 7 10 }
{
    what_has_no_cause();
}

/// A grid of 2 by 2 points from 50 to 49 degrees north and from 10 to 11 degrees east, in some scanning modes.
pub fn worked_orders()
    ensures latitudes { words_of Latitude (grid 4 2 2 north west south east 0) 4
        ≡ 0x4049_0000_0000_0000 ∷ 0x4049_0000_0000_0000 ∷ 0x4048_8000_0000_0000 ∷ 0x4048_8000_0000_0000 ∷ [] }
    ensures longitudes { words_of Longitude (grid 4 2 2 north west south east 0) 4
        ≡ 0x4024_0000_0000_0000 ∷ 0x4026_0000_0000_0000 ∷ 0x4024_0000_0000_0000 ∷ 0x4026_0000_0000_0000 ∷ [] }
    ensures northward { words_of Latitude (grid 4 2 2 south west north east 0x40) 4
        ≡ 0x4048_8000_0000_0000 ∷ 0x4048_8000_0000_0000 ∷ 0x4049_0000_0000_0000 ∷ 0x4049_0000_0000_0000 ∷ [] }
    ensures columns { words_of Latitude (grid 4 2 2 north west south east 0x30) 4
        ≡ 0x4049_0000_0000_0000 ∷ 0x4048_8000_0000_0000 ∷ 0x4048_8000_0000_0000 ∷ 0x4049_0000_0000_0000 ∷ [] }
    ensures in_turn { words_of Longitude (grid 4 2 2 north east south west 0x90) 4
        ≡ 0x4026_0000_0000_0000 ∷ 0x4024_0000_0000_0000 ∷ 0x4024_0000_0000_0000 ∷ 0x4026_0000_0000_0000 ∷ [] }
{}

/// A row from 359.5 degrees eastward to 0.5 degrees, one round the earth to where it begins, and one from 0.5 degrees
/// westward; columns with thirds of a degree.
pub fn worked_places()
    ensures eastward { words_of Longitude (grid 3 3 1 north before_greenwich north half 0) 3
        ≡ 0x4076_7800_0000_0000 ∷ 0x4076_8000_0000_0000 ∷ 0x4076_8800_0000_0000 ∷ [] }
    ensures round { words_of Longitude (grid 3 3 1 north (few 0) north (few 0) 0) 3
        ≡ 0 ∷ 0x4066_8000_0000_0000 ∷ 0x4076_8000_0000_0000 ∷ [] }
    ensures westward { words_of Longitude (grid 3 3 1 north half north before_greenwich 0x80) 3
        ≡ 0x3fe0_0000_0000_0000 ∷ 0 ∷ 0xbfe0_0000_0000_0000 ∷ [] }
    ensures thirds { words_of Latitude (grid 4 1 4 one west (few 0) west 0) 4
        ≡ 0x3ff0_0000_0000_0000 ∷ 0x3fe5_5555_5555_5555 ∷ 0x3fd5_5555_5555_5555 ∷ 0 ∷ [] }
    ensures negative { words_of Latitude (grid 4 1 4 minus_one west (few 0) west 0x40) 4
        ≡ 0xbff0_0000_0000_0000 ∷ 0xbfe5_5555_5555_5555 ∷ 0xbfd5_5555_5555_5555 ∷ 0 ∷ [] }
    ensures single { words_of Latitude (grid 1 1 1 one west one west 0) 1 ≡ 0x3ff0_0000_0000_0000 ∷ [] }
{}

/// Halves of 10^-6 degree are rounded to the even number, and a coordinate of 0 has no sign.
pub fn worked_texts()
    ensures to_zero { micros_of Latitude (grid 3 1 3 (few 1) west (few 0) west 0) 3 ≡ pos 1 ∷ pos 0 ∷ pos 0 ∷ [] }
    ensures to_two { micros_of Latitude (grid 3 1 3 (few 3) west (few 0) west 0) 3 ≡ pos 3 ∷ pos 2 ∷ pos 0 ∷ [] }
    ensures negative { micros_of Latitude (grid 4 1 4 minus_one west (few 0) west 0x40) 4
        ≡ neg_ℤ (pos 1000000) ∷ neg_ℤ (pos 666667) ∷ neg_ℤ (pos 333333) ∷ pos 0 ∷ [] }
    ensures half { degrees_text (neg_ℤ (pos 500000)) ≡ codes "-0.500000" }
    ensures ten { degrees_text (pos 10000000) ≡ codes "10.000000" }
    ensures zero { degrees_text (pos 0) ≡ codes "0.000000" }
    ensures least { degrees_text (neg_ℤ (pos 1)) ≡ codes "-0.000001" }
{}

/// Why places are not told.
pub fn worked_causes()
    ensures none { place_cause_of (grid 4 2 2 north west south east 0xf0) ≡ None }
    ensures reserved { place_cause_of (grid 4 2 2 north west south east 0x08) ≡ Some ScanMode }
    ensures angle { place_cause_of (with_angle 1 (grid 4 2 2 north west south east 0x08)) ≡ Some GridKind }
{}
