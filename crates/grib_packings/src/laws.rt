//! Laws over the definitions.

ghost use Rattle.std.specs.Prelude.{◌≡◌, ℕ, List, Bool, [], ◌++◌};
ghost use Rattle.grib_bitmap.specs.Mask.{present_count};
ghost use Rattle.grib_packing.specs.declared.keeping.Points as keeping;
ghost use Rattle.grib_packing.specs.Kept.{ArePoints, PointsKept};
ghost use Rattle.grib_packing.specs.Packing.{value_count};
ghost use Rattle.grib_packings.specs.declared.feeding.Feeding as feeding;
ghost use Rattle.grib_packings.specs.Feeding.{Agrees, HasRead};

/// A feeder that reads on agrees with what came: `push` says of every keeper that it has read the piece behind the
/// octets before, and so the feeder agrees with these octets, where it agreed with those before. Its mask, its group
/// table, its first values and its points are those of each section that continues them.
pub fn what_is_pushed_agrees()
    ensures start { (s5 : List ℕ) (mask : List Bool) (start l : ℕ) (octets : List ℕ) (first : keeping.Points) (feeder : feeding.Feeding keeping.Points)
        → ArePoints mask [] first → present_count mask ≡ value_count s5 → HasRead PointsKept s5 first start l octets feeder
        → Agrees s5 mask start l octets feeder }
    ensures push { (s5 : List ℕ) (mask : List Bool) (start l : ℕ) (octets piece : List ℕ) (before after : feeding.Feeding keeping.Points)
        → ((keeper : keeping.Points) → HasRead PointsKept s5 keeper start l octets before → HasRead PointsKept s5 keeper start l (octets ++ piece) after)
        → Agrees s5 mask start l octets before → Agrees s5 mask start l (octets ++ piece) after }
{}
