//! The fields of worked messages side by side.

ghost use Rattle.std.specs.Prelude.{◌≡◌, ◌↔◌, true, false};
ghost use Rattle.grib_dyadic.specs.Meaning.{SameMeaning};
ghost use Rattle.grib_file.specs.Filed.{FieldOf, field_of};
ghost use Rattle.grib_compare.specs.Fields.{compared, meanings};
ghost use Rattle.grib_compare.specs.declared.comparison.Comparison.TheVariants.{Same, Differs, Section};
ghost use Rattle.grib_examples.specs.Hex.{hex, put};
ghost use Rattle.grib_examples.specs.Messages.{m1, m2, m3};

/// `same` is said of two fields exactly where their points mean the same, of either edition and in any packing.
pub fn same_says_that_points_mean_the_same()
    ensures { (left right : FieldOf) → (compared false left right ≡ Same) ↔ SameMeaning (meanings left) (meanings right) }
{}

/// The plain message beside itself, beside one of another hour, and beside spatial differencing with other values; and the fields
/// of a message with a bitmap, whose second point is missing.
pub fn worked_fields_side_by_side()
    ensures itself { compared true (field_of m1 1) (field_of m1 1) ≡ Same }
    ensures hour { compared false (field_of m1 1) (field_of (put m1 33 (hex "12")) 1) ≡ Same }
    ensures sections { compared true (field_of m1 1) (field_of (put m1 33 (hex "12")) 1) ≡ Section 1 17 }
    ensures differences { compared false (field_of m1 1) (field_of m3 1) ≡ Differs 1 }
    ensures missing { compared false (field_of m1 1) (field_of m2 1) ≡ Differs 2 }
    ensures fields { compared false (field_of m2 2) (field_of m2 1) ≡ Differs 1 }
{}
