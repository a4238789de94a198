//! What the fields of the worked messages hold.

ghost use Rattle.std.specs.Prelude.{◌≡◌, [], ◌∷◌, negsuc, true, None, replicate};
ghost use Rattle.grib_base.specs.declared.code.Code.TheVariants.{Present, Primary};
ghost use Rattle.grib_packing.specs.declared.column.Point.TheVariants.{Scaled, Missing, Missing2};
ghost use Rattle.grib2_sections.specs.Verdict.{Accepted};
ghost use Rattle.grib2_message.specs.Acceptance.{verdict_2};
ghost use Rattle.grib2_message.specs.Fields.{column_of, field_count, field_mask, part_octets};
ghost use Rattle.grib_packing.specs.Entries.{codes_of, minimum, first_value, packing_fault, column_from};
ghost use Rattle.grib_examples.specs.Hex.{hex, put};
ghost use Rattle.grib_examples.specs.Messages.{m1, m2, m3, c1, c2, w, representation};
ghost use Rattle.grib_examples.specs.Variations.{no_bits, no_groups, no_differences, second_order};
ghost use Rattle.grib_examples.specs.Columns.{scaled, column};

/// Simple packing: four numbers of 8 bits, with the raw octets of R, E and D beside them.
pub fn plain_column()
    ensures fields { field_count m1 ≡ 1 }
    ensures column { column_of m1 1 ≡ column (scaled 0 ∷ scaled 1 ∷ scaled 2 ∷ scaled 255 ∷ []) }
    ensures representation { part_octets m1 1 5 ≡ representation }
{}

/// Numbers of 0 bits are 0.
pub fn numbers_without_bits()
    ensures accepted { verdict_2 no_bits ≡ Accepted 179 }
    ensures column { column_of no_bits 1 ≡ column (scaled 0 ∷ scaled 0 ∷ scaled 0 ∷ scaled 0 ∷ []) }
{}

/// Numbers of 40 bits.
pub fn wide_numbers()
    ensures column { column_of w 1 ≡ column (scaled 0 ∷ scaled 1 ∷ scaled 2 ∷ scaled 4294967296 ∷ []) }
{}

/// A bitmap of its own, and the bitmap of an earlier field.
pub fn masked_columns()
    ensures fields { field_count m2 ≡ 2 }
    ensures first { column_of m2 1 ≡ column (scaled 0 ∷ Missing ∷ scaled 1 ∷ scaled 2 ∷ []) }
    ensures second { column_of m2 2 ≡ column (scaled 3 ∷ Missing ∷ scaled 4 ∷ scaled 5 ∷ []) }
    ensures same_mask { field_mask m2 2 ≡ field_mask m2 1 }
{}

/// Complex packing with missing values in a group of width 2, and of width 1.
pub fn grouped_columns()
    ensures primary { column_of c1 1 ≡ column (scaled 5 ∷ Missing ∷ scaled 6 ∷ []) }
    ensures both { column_of c2 1 ≡ column (Missing ∷ Missing2 ∷ Missing ∷ Missing2 ∷ []) }
    ensures codes { codes_of (part_octets c1 1 5) (part_octets c1 1 7) ≡ Present 5 ∷ Primary ∷ Present 6 ∷ [] }
{}

/// Where there are no groups every value is 0, and Section 7 is not read: neither for groups nor for first
/// values and a minimum.
pub fn column_without_groups()
    ensures accepted_differences { verdict_2 no_differences ≡ Accepted 207 }
    ensures differences { column_of no_differences 1 ≡ column (scaled 0 ∷ scaled 0 ∷ scaled 0 ∷ scaled 0 ∷ []) }
    ensures accepted { verdict_2 no_groups ≡ Accepted 205 }
    ensures column { column_of no_groups 1 ≡ column (scaled 0 ∷ scaled 0 ∷ scaled 0 ∷ scaled 0 ∷ []) }
{}

/// Spatial differencing of order 1: the first value 5, the minimum -10, the codes 0, 0, 16, 11.
pub fn differenced_column()
    ensures first_value { first_value (part_octets m3 1 5) (part_octets m3 1 7) 0 ≡ 5 }
    ensures minimum { minimum (part_octets m3 1 5) (part_octets m3 1 7) ≡ negsuc 9 }
    ensures codes { codes_of (part_octets m3 1 5) (part_octets m3 1 7) ≡ Present 0 ∷ Present 0 ∷ Present 16 ∷ Present 11 ∷ [] }
    ensures column { column_of m3 1 ≡ column (scaled 5 ∷ Scaled (negsuc 4) ∷ scaled 1 ∷ scaled 2 ∷ []) }
{}

/// Spatial differencing of order 2: the first values 10 and 12, the minimum 1, and one group of width 0
/// whose codes are 0.
pub fn second_differences()
    ensures accepted { packing_fault (second_order 4) 4 ≡ None }
    ensures column { column_from (second_order 4) (replicate 4 true) (hex "00000009 07 0A 0C 01 0C")
        ≡ column (scaled 10 ∷ scaled 12 ∷ scaled 15 ∷ scaled 19 ∷ []) }
    ensures one_value { column_from (second_order 1) (replicate 1 true) (hex "00000009 07 07 00 00 00") ≡ column (scaled 7 ∷ []) }
{}

/// Numbers of 33 bits, which do not begin at whole octets.
pub fn numbers_across_octets()
    ensures column { column_from (put representation 20 (hex "21")) (replicate 4 true) (hex "00000016 07 0000000000000000 40 000000 50 00000000")
        ≡ column (scaled 0 ∷ scaled 1 ∷ scaled 2 ∷ scaled 4294967296 ∷ []) }
{}
