//! Laws over the definitions.

ghost use Rattle.std.specs.Prelude.{◌≡◌, ℕ, ◌+◌, ◌*◌, ◌%◌, ◌^◌, ◌<◌, ◌≤◌, ◌&&◌, nat_abs, cond, Bool, true, false, nat_le, ℤ, negsuc, List, length, [], ◌∷◌, pos, Some, None};
ghost use Rattle.grib_packing.specs.declared.column.Point.{Point as Entry};
ghost use Rattle.grib_rescan.specs.declared.scanning.Scanning.{Scanning as Order};
ghost use Rattle.grib_rescan.specs.declared.points.Area.{Area as Rectangle};
ghost use Rattle.grib_rescan.specs.declared.bounds.Bounds.{Bounds as Limits};
ghost use Rattle.grib_rescan.specs.Scanning.{scanning_of, place, point_at};
ghost use Rattle.grib_packing.specs.declared.column.Point.TheVariants.{Scaled};
ghost use Rattle.grib_rescan.specs.declared.cause.GridCause.TheVariants.{ScanMode, OutsideBox, Increments};
ghost use Rattle.grib_bits.specs.Octets.{octets, signed_octets, octet_list};
ghost use Rattle.grib_base.specs.Rules.{first_fault};
ghost use Rattle.grib_base.specs.declared.profile.Profile.{Profile};
ghost use Rattle.grib2_grids.specs.Opaque.{grid_rules_under};
ghost use Rattle.grib_rescan.specs.Sections.{rescanned_section, cropped_section, latitude_at, longitude_at, has_steps, AreApart, IsLatLon, HasPoints, HasTemplate};
ghost use Rattle.grib_rescan.specs.declared.bounds.Bounds.TheVariants.{Box, Nearest};
ghost use Rattle.grib_rescan.specs.declared.places.Run.{Run as Places};
ghost use Rattle.grib_rescan.specs.Bounds.{run_of, east_of, goes_round, in_rows, in_columns, row_distance, column_distance, area_in, area_within};
ghost use Rattle.grib_rescan.specs.Places.{IsRun, IsNearest};
ghost use Rattle.grib_rescan.specs.Causes.{rescan_cause_of, crop_cause_of, within_cause_of, CanBeCut, HasWithin};
ghost use Rattle.grib_rescan.specs.Worked.{north, south, west, east, grid, round, half_round, points_of, area_of};
ghost use Rattle.grib_rescan.specs.Points.{IsBox, point, width, height, rescanned_points, cropped_points};

/// Each place of a grid has one point, and each point one place.
pub fn a_place_has_one_point()
    ensures within { (scanning : Order) (ni nj i j : ℕ) → i < ni → j < nj
        → point_at scanning ni nj i j < ni * nj }
    ensures place { (scanning : Order) (ni nj i j : ℕ) → i < ni → j < nj
        → place scanning ni nj (point_at scanning ni nj i j) ≡ record { column = i; row = j } }
    ensures point { (scanning : Order) (ni nj n : ℕ) → n < ni * nj
        → let at = place scanning ni nj n in point_at scanning ni nj at.column at.row ≡ n }
{}

/// In the order of scanning octet 0 each point is the old one of its place.
pub fn what_is_rescanned_keeps_each_place()
    ensures length { (scanning : Order) (ni nj : ℕ) (points : List Entry)
        → length (rescanned_points scanning ni nj points) ≡ ni * nj }
    ensures places { (scanning : Order) (ni nj i j : ℕ) (points : List Entry) → i < ni → j < nj
        → point (rescanned_points scanning ni nj points) (j * ni + i)
        ≡ point points (point_at scanning ni nj i j) }
    ensures entries { (scanning : Order) (ni nj n m : ℕ) (points : List Entry) → n < ni * nj → m < ni * nj
        → place (scanning_of 0) ni nj n ≡ place scanning ni nj m
        → point (rescanned_points scanning ni nj points) n ≡ point points m }
{}

/// The point in column i and row j of a subarea is that in column i + i0 and row j + j0 of the grid, where the first
/// column follows the last.
pub fn what_is_cropped_keeps_each_place()
    ensures length { (area : Rectangle) (ni nj : ℕ) (points : List Entry)
        → length (cropped_points area ni nj points) ≡ height area * width area }
    ensures places { (area : Rectangle) (ni nj i j : ℕ) (points : List Entry) → i < width area → j < height area
        → point (cropped_points area ni nj points) (j * width area + i)
        ≡ point points ((area.j0 + j) * ni + (area.i0 + i) % ni) }
{}

/// In a grid that goes round the earth, columns that are as many apart as the grid has have the same longitude.
pub fn what_goes_round()
    ensures { (s : List ℕ) (i : ℕ) → goes_round s ≡ true
        → longitude_at s (i % octets s 31 34) ≡ longitude_at s i }
{}

/// The rows and the columns of the box that lies within bounds, by their degrees alone: each row that lies between
/// the parallels and no other one, and each column that lies eastward from `west`, no farther than `east`, and no
/// other one. In a grid that goes round, the first is the one nearest to `west`, eastward from it; in any other, no
/// column follows the last.
pub fn what_lies_within()
    ensures lies_in { (bounds : Limits) (s : List ℕ) (area : Rectangle) → HasPoints s → area_in bounds s ≡ Some area
        → IsBox area (octets s 31 34) (octets s 35 38) }
    ensures rows { (north south west east : ℤ) (s : List ℕ) (area : Rectangle) → HasPoints s
        → area_in (Box north south west east) s ≡ Some area → (j : ℕ) → j < octets s 35 38
        → (nat_le area.j0 j && nat_le j area.j1) ≡ in_rows south north s j }
    ensures columns { (north south west east : ℤ) (s : List ℕ) (area : Rectangle) → HasPoints s
        → area_in (Box north south west east) s ≡ Some area → (k : ℕ) → k < width area
        → in_columns west east s ((area.i0 + k) % octets s 31 34) ≡ true }
    ensures all_columns { (north south west east : ℤ) (s : List ℕ) (area : Rectangle) → HasPoints s
        → area_in (Box north south west east) s ≡ Some area → (i : ℕ) → i < octets s 31 34
        → in_columns west east s i ≡ true → (k : ℕ) × (k < width area) × ((area.i0 + k) % octets s 31 34 ≡ i) }
    ensures from_west { (north south west east : ℤ) (s : List ℕ) (area : Rectangle) → HasPoints s
        → area_in (Box north south west east) s ≡ Some area → goes_round s ≡ true → (i : ℕ) → i < octets s 31 34
        → east_of west (longitude_at s area.i0) ≤ east_of west (longitude_at s i) }
    ensures to_last { (north south west east : ℤ) (s : List ℕ) (area : Rectangle) → HasPoints s
        → area_in (Box north south west east) s ≡ Some area → goes_round s ≡ false → area.i1 < octets s 31 34 }
{}

/// Places are one run just where there are a first and a last between which all hold, and no others do.
pub fn what_is_one_run()
    ensures run { (holds : ℕ → Bool) (n : ℕ) (run : Places) → run_of holds n ≡ Some run → IsRun holds n run }
    ensures found { (holds : ℕ → Bool) (n : ℕ) (run : Places) → IsRun holds n run → run_of holds n ≡ Some run }
{}

/// The point nearest to a place is always there: no row and no column is nearer, and none before it is as near.
pub fn what_is_nearest()
    ensures there { (latitude longitude : ℤ) (s : List ℕ) → HasPoints s
        → area_in (Nearest latitude longitude) s ≡ Some (area_within (Nearest latitude longitude) s) }
    ensures one { (latitude longitude : ℤ) (s : List ℕ) → HasPoints s
        → let area = area_within (Nearest latitude longitude) s in (area.i0 ≡ area.i1) × (area.j0 ≡ area.j1) }
    ensures row { (latitude longitude : ℤ) (s : List ℕ) → HasPoints s
        → IsNearest (row_distance latitude s) (octets s 35 38) (area_within (Nearest latitude longitude) s).j0 }
    ensures column { (latitude longitude : ℤ) (s : List ℕ) → HasPoints s
        → IsNearest (column_distance longitude s) (octets s 31 34) (area_within (Nearest latitude longitude) s).i0 }
{}

/// Where the increments of a grid of latitude and longitude are known, bounds are refused just where there is no box.
pub fn what_lies_outside()
    ensures outside { (bounds : Limits) (s : List ℕ) → IsLatLon s → octets s 72 72 ≡ 0 → has_steps s ≡ true
        → area_in bounds s ≡ None → within_cause_of bounds s ≡ Some OutsideBox }
    ensures inside { (bounds : Limits) (s : List ℕ) (area : Rectangle) → IsLatLon s → octets s 72 72 ≡ 0
        → has_steps s ≡ true → area_in bounds s ≡ Some area → within_cause_of bounds s ≡ None }
{}

/// What a Section 3 says in the order of scanning octet 0: the corners exchanged, all other numbers as before.
pub fn what_a_rescanned_grid_says()
    ensures la1 { (s : List ℕ) → 72 ≤ length s → octets (rescanned_section s) 47 50
        ≡ cond (scanning_of (octets s 72 72)).northward (octets s 56 59) (octets s 47 50) }
    ensures lo1 { (s : List ℕ) → 72 ≤ length s → octets (rescanned_section s) 51 54
        ≡ cond (scanning_of (octets s 72 72)).westward (octets s 60 63) (octets s 51 54) }
    ensures la2 { (s : List ℕ) → 72 ≤ length s → octets (rescanned_section s) 56 59
        ≡ cond (scanning_of (octets s 72 72)).northward (octets s 47 50) (octets s 56 59) }
    ensures lo2 { (s : List ℕ) → 72 ≤ length s → octets (rescanned_section s) 60 63
        ≡ cond (scanning_of (octets s 72 72)).westward (octets s 51 54) (octets s 60 63) }
    ensures scanning { (s : List ℕ) → 72 ≤ length s → octets (rescanned_section s) 72 72 ≡ 0 }
    ensures others { (s : List ℕ) → 72 ≤ length s
        → (first last : ℕ) → 1 ≤ first → AreApart first last 47 54 → AreApart first last 56 63
        → AreApart first last 72 72 → octet_list (rescanned_section s) first last ≡ octet_list s first last }
{}

/// What a Section 3 of a subarea says: its numbers, its corners, and all other numbers as the grid has them.
pub fn what_a_cropped_grid_says()
    ensures points { (area : Rectangle) (s : List ℕ) → 72 ≤ length s → height area * width area < 2 ^ 32
        → octets (cropped_section area s) 7 10 ≡ height area * width area }
    ensures ni { (area : Rectangle) (s : List ℕ) → 72 ≤ length s → width area < 2 ^ 32
        → octets (cropped_section area s) 31 34 ≡ width area }
    ensures nj { (area : Rectangle) (s : List ℕ) → 72 ≤ length s → height area < 2 ^ 32
        → octets (cropped_section area s) 35 38 ≡ height area }
    ensures la1 { (area : Rectangle) (s : List ℕ) → 72 ≤ length s → nat_abs (latitude_at s area.j0) < 2 ^ 31
        → signed_octets (cropped_section area s) 47 50 ≡ latitude_at s area.j0 }
    ensures lo1 { (area : Rectangle) (s : List ℕ) → 72 ≤ length s
        → octets (cropped_section area s) 51 54 ≡ longitude_at s area.i0 }
    ensures la2 { (area : Rectangle) (s : List ℕ) → 72 ≤ length s → nat_abs (latitude_at s area.j1) < 2 ^ 31
        → signed_octets (cropped_section area s) 56 59 ≡ latitude_at s area.j1 }
    ensures lo2 { (area : Rectangle) (s : List ℕ) → 72 ≤ length s
        → octets (cropped_section area s) 60 63 ≡ longitude_at s area.i1 }
    ensures others { (area : Rectangle) (s : List ℕ) → 72 ≤ length s → (first last : ℕ) → 1 ≤ first
        → AreApart first last 7 10 → AreApart first last 31 38 → AreApart first last 47 54
        → AreApart first last 56 63 → octet_list (cropped_section area s) first last ≡ octet_list s first last }
{}

/// No row of a profile refuses the new Section 3, where none refuses that of the grid.
pub fn a_new_grid_is_accepted()
    ensures accepted { (profile : Profile) (s : List ℕ) → IsLatLon s → first_fault (grid_rules_under profile s) ≡ None }
    ensures rescanned { (s : List ℕ) → IsLatLon s → IsLatLon (rescanned_section s) }
    ensures cropped { (area : Rectangle) (s : List ℕ) → IsLatLon s → IsBox area (octets s 31 34) (octets s 35 38)
        → IsLatLon (cropped_section area s) }
{}

/// What is known where no row of a profile refuses a Section 3 and no cause holds: the conditions of what makes the
/// new one.
pub fn what_has_no_cause()
    ensures template { (profile : Profile) (s : List ℕ) → first_fault (grid_rules_under profile s) ≡ None → HasTemplate s }
    ensures points { (s : List ℕ) → IsLatLon s → HasPoints s }
    ensures rescanned { (profile : Profile) (s : List ℕ) → first_fault (grid_rules_under profile s) ≡ None
        → rescan_cause_of s ≡ None → IsLatLon s }
    ensures cropped { (profile : Profile) (area : Rectangle) (s : List ℕ) → first_fault (grid_rules_under profile s) ≡ None
        → crop_cause_of area s ≡ None → CanBeCut area s }
    ensures within { (profile : Profile) (bounds : Limits) (s : List ℕ) → first_fault (grid_rules_under profile s) ≡ None
        → within_cause_of bounds s ≡ None → HasWithin bounds s }
{}

/// A grid whose rows go from the south to the north, and one whose rows go from the east to the west and
/// from the west to the east in turn.
pub fn worked_orders()
    ensures northward { rescanned_points (scanning_of 0x40) 2 2 (points_of 0 1 2 255) ≡ points_of 2 255 0 1 }
    ensures in_turn { rescanned_points (scanning_of 0x90) 2 2 (points_of 0 1 2 255) ≡ points_of 1 0 2 255 }
    ensures columns { rescanned_points (scanning_of 0x30) 2 2 (points_of 0 1 2 255) ≡ points_of 0 255 1 2 }
    ensures south { rescanned_section (grid 4 2 2 south west north east 0x40) ≡ grid 4 2 2 north west south east 0 }
    ensures east { rescanned_section (grid 4 2 2 north east south west 0x90) ≡ grid 4 2 2 north west south east 0 }
    ensures none { rescan_cause_of (grid 4 2 2 north east south west 0x90) ≡ None }
    ensures reserved { rescan_cause_of (grid 4 2 2 north west south east 0x08) ≡ Some ScanMode }
{}

/// The eastern column of a grid; a subarea that does not lie in it; a last point that the increments do not give.
pub fn worked_boxes()
    ensures points { cropped_points (area_of 1 1 0 1) 2 2 (points_of 0 1 2 255)
        ≡ Scaled (pos 1) ∷ Scaled (pos 255) ∷ [] }
    ensures section { cropped_section (area_of 1 1 0 1) (grid 4 2 2 north west south east 0)
        ≡ grid 2 1 2 north east south east 0 }
    ensures none { crop_cause_of (area_of 1 1 0 1) (grid 4 2 2 north west south east 0) ≡ None }
    ensures outside { crop_cause_of (area_of 0 2 0 0) (grid 4 2 2 north west south east 0) ≡ Some OutsideBox }
    ensures order { crop_cause_of (area_of 0 2 0 0) (grid 4 2 2 south west north east 0x40) ≡ Some ScanMode }
    ensures increments { crop_cause_of (area_of 0 0 0 0) (grid 4 2 2 north west south west 0) ≡ Some Increments }
{}

/// Four columns of 90 degrees go round the earth: from 90 degrees west to the meridian of Greenwich there are the last
/// one and the first one. A grid that does not go round has no point there; its row of 50 degrees, and the point nearest
/// to a place.
pub fn worked_bounds()
    ensures across { area_in (Box (pos 60000000) (pos 40000000) (negsuc 89999999) (pos 0)) round ≡ Some (area_of 3 4 0 0) }
    ensures points { cropped_points (area_of 3 4 0 0) 4 1 (points_of 0 1 2 255)
        ≡ Scaled (pos 255) ∷ Scaled (pos 0) ∷ [] }
    ensures section { cropped_section (area_of 3 4 0 0) round ≡ half_round }
    ensures all { area_in (Box (pos 60000000) (pos 40000000) (pos 100000000) (pos 460000000)) round ≡ Some (area_of 2 5 0 0) }
    ensures none { within_cause_of (Box (pos 60000000) (pos 40000000) (negsuc 89999999) (pos 0)) round ≡ None }
    ensures outside { within_cause_of (Box (pos 60000000) (pos 40000000) (negsuc 89999999) (pos 0)) (grid 4 2 2 north west south east 0)
        ≡ Some OutsideBox }
    ensures apart { within_cause_of (Box (pos 60000000) (pos 40000000) (pos 11000000) (pos 10000000)) (grid 4 2 2 north west south east 0)
        ≡ None }
    ensures row { area_in (Box (pos 50000000) (pos 49500000) (pos 10000000) (pos 11000000)) (grid 4 2 2 north west south east 0)
        ≡ Some (area_of 0 1 0 0) }
    ensures nearest { area_in (Nearest (pos 49400000) (pos 10500000)) (grid 4 2 2 north west south east 0) ≡ Some (area_of 0 0 1 1) }
    ensures increments { within_cause_of (Nearest (pos 49400000) (pos 10500000)) (grid 4 2 2 north west south west 0) ≡ Some Increments }
{}
