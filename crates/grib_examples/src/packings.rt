//! What packing writes for the columns of worked messages, and what it refuses to write.

ghost use Rattle.std.specs.Prelude.{◌≡◌, [], ◌∷◌, ◌++◌, ◌-◌, ◌^◌, pos, negsuc, None, Some};
ghost use Rattle.grib_bits.specs.Bits.{bits};
ghost use Rattle.grib_base.specs.declared.code.Code.TheVariants.{Present, Primary, Secondary};
ghost use Rattle.grib_packing.specs.declared.column.Point.TheVariants.{Scaled, Missing, Missing2};
ghost use Rattle.grib_packing.specs.Differences.{descriptors_of, difference_codes};
ghost use Rattle.grib_packing.specs.Groupings.{reference_bits_of, width_bits_of, width_of, header_bits, cost_of};
ghost use Rattle.grib_packing.specs.Misfits.{ToSimple, ToComplex, ToSpatial, SecondaryMissing, OutOfRange, DifferenceRange, first_misfit, management_of};
ghost use Rattle.grib_packing.specs.Packed.{target_codes, group_parts, descriptor_fields, simple_width, simple_numbers, fields, padded};
ghost use Rattle.grib_examples.specs.Columns.{scaled};
ghost use Rattle.grib_examples.specs.Hex.{hex};

/// Numbers beside a point that is left out: three bits of references, since a code is reserved.
pub fn marks_among_numbers()
    ensures reserved { management_of (scaled 5 ∷ Missing ∷ scaled 6 ∷ []) ≡ 1 }
    ensures codes { target_codes ToComplex (scaled 5 ∷ Missing ∷ scaled 6 ∷ [])
        ≡ Present 5 ∷ Primary ∷ Present 6 ∷ [] }
    ensures parts { group_parts 1 (Present 5 ∷ Primary ∷ Present 6 ∷ []) (3 ∷ [])
        ≡ bits (hex "A0 80 08 34") }
{}

/// Four bits, and not three, where the greatest number would be all ones.
pub fn reserved_references()
    ensures bits { reference_bits_of 1 (Present 7 ∷ Primary ∷ Present 7 ∷ Present 7 ∷ []) ≡ 4 }
    ensures parts { group_parts 1 (Present 7 ∷ Primary ∷ Present 7 ∷ Present 7 ∷ []) (4 ∷ [])
        ≡ bits (hex "70 80 0C 40") }
{}

/// A field of missing values alone.
pub fn marks_alone()
    ensures codes { target_codes ToComplex (Missing ∷ Missing2 ∷ Missing ∷ Missing2 ∷ [])
        ≡ Primary ∷ Secondary ∷ Primary ∷ Secondary ∷ [] }
    ensures bits { reference_bits_of 2 (Primary ∷ Secondary ∷ []) ≡ 2 }
    ensures width { width_of 2 (Primary ∷ Secondary ∷ []) ≡ 1 }
    ensures parts { group_parts 2 (Primary ∷ Secondary ∷ Primary ∷ Secondary ∷ []) (4 ∷ [])
        ≡ bits (hex "00 80 0C A0") }
{}

/// First differences in one group and in two, which cost the same.
pub fn first_differences()
    ensures codes { difference_codes 1 (pos 5 ∷ negsuc 4 ∷ pos 1 ∷ pos 2 ∷ []) ≡ 0 ∷ 0 ∷ 16 ∷ 11 ∷ [] }
    ensures one { cost_of 14 (width_of 0) (4 ∷ []) (Present 0 ∷ Present 0 ∷ Present 16 ∷ Present 11 ∷ []) ≡ 34 }
    ensures two { cost_of 14 (width_of 0) (2 ∷ 2 ∷ []) (Present 0 ∷ Present 0 ∷ Present 16 ∷ Present 11 ∷ []) ≡ 34 }
    ensures header { header_bits 0 (Present 0 ∷ Present 0 ∷ Present 16 ∷ Present 11 ∷ []) ≡ 14 }
    ensures data_section { descriptor_fields (descriptors_of 1 (pos 5 ∷ negsuc 4 ∷ pos 1 ∷ pos 2 ∷ []))
        ++ group_parts 0 (Present 0 ∷ Present 0 ∷ Present 16 ∷ Present 11 ∷ []) (2 ∷ 2 ∷ [])
        ≡ bits (hex "05 8A 02C0 0C 0410 A0") }
{}

/// Second differences that are all the same take no bits.
pub fn second_differences()
    ensures codes { target_codes (ToSpatial 2) (scaled 10 ∷ scaled 12 ∷ scaled 15 ∷ scaled 19 ∷ [])
        ≡ Present 0 ∷ Present 0 ∷ Present 0 ∷ Present 0 ∷ [] }
    ensures data_section { descriptor_fields (descriptors_of 2 (pos 10 ∷ pos 12 ∷ pos 15 ∷ pos 19 ∷ []))
        ++ group_parts 0 (Present 0 ∷ Present 0 ∷ Present 0 ∷ Present 0 ∷ []) (4 ∷ [])
        ≡ bits (hex "0A 0C 01 0C") }
{}

/// Simple packing takes the bits of the greatest number.
pub fn simple_data()
    ensures width { simple_width (scaled 0 ∷ scaled 1 ∷ scaled 2 ∷ scaled 255 ∷ []) ≡ 8 }
    ensures without_bits { simple_width (Missing ∷ scaled 0 ∷ []) ≡ 0 }
    ensures data_section { padded (fields 8 (simple_numbers (scaled 0 ∷ scaled 1 ∷ scaled 2 ∷ scaled 255 ∷ [])))
        ≡ bits (hex "000102FF") }
{}

/// What simple packing cannot keep, and what groups and differences cannot.
pub fn misfits()
    ensures negative { first_misfit ToSimple (scaled 5 ∷ Scaled (negsuc 4) ∷ scaled 1 ∷ scaled 2 ∷ [])
        ≡ Some (OutOfRange 2) }
    ensures secondary { first_misfit ToSimple (Missing ∷ Missing2 ∷ Missing ∷ Missing2 ∷ [])
        ≡ Some (SecondaryMissing 2) }
    ensures marks_first { first_misfit ToSimple (Scaled (negsuc 4) ∷ Missing2 ∷ []) ≡ Some (SecondaryMissing 2) }
    ensures greatest { first_misfit ToComplex (Missing ∷ Scaled (pos (2 ^ 32 - 2)) ∷ []) ≡ None }
    ensures too_great { first_misfit ToComplex (Missing ∷ Scaled (pos (2 ^ 32 - 1)) ∷ []) ≡ Some (OutOfRange 2) }
    ensures first_value { first_misfit (ToSpatial 1) (Scaled (negsuc 0) ∷ scaled 5 ∷ []) ≡ Some DifferenceRange }
    ensures minimum { first_misfit (ToSpatial 1) (scaled (2 ^ 31 - 1) ∷ scaled 0 ∷ []) ≡ None }
    ensures steep { first_misfit (ToSpatial 1) (scaled (2 ^ 31 - 1) ∷ Scaled (negsuc 0) ∷ []) ≡ Some DifferenceRange }
{}
