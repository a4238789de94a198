//! CCSDS packing, tried on the plain message in blocks of 8 values, and on streams with one fault each.

ghost use Rattle.std.specs.Prelude.{◌≡◌, [], ◌∷◌, true, Some, None, replicate, take};
ghost use Rattle.grib_base.specs.declared.fault.Reason.TheVariants.{Ccsds, SectionLength, BitWidth, DataTooShort, BlockCode, ScaledRange};
ghost use Rattle.grib_base.specs.declared.profile.Profile.TheVariants.{Stated, Open};
ghost use Rattle.grib_base.specs.Rules.{refusal, located};
ghost use Rattle.grib_packing.specs.Entries.{packing_fault_under, data_fault, column_from};
ghost use Rattle.grib_examples.specs.Coded.{coded_numbers, coded_values, four_bits};
ghost use Rattle.grib_examples.specs.Hex.{hex, put};
ghost use Rattle.grib_examples.specs.Columns.{scaled, column};

/// One block of Split with k = 5.
pub fn coded_message()
    ensures accepted { packing_fault_under Open coded_numbers 4 ≡ None }
    ensures unstated { located 144 (packing_fault_under Stated coded_numbers 4) ≡ Some (refusal 153 Ccsds 42) }
    ensures data { data_fault coded_numbers coded_values ≡ None }
    ensures column { column_from coded_numbers (replicate 4 true) coded_values
        ≡ column (scaled 0 ∷ scaled 1 ∷ scaled 2 ∷ scaled 255 ∷ []) }
    ensures no_bits { column_from (put (put coded_numbers 20 (hex "00")) 22 (hex "FF")) (replicate 4 true) (hex "00000005 07")
        ≡ column (scaled 0 ∷ scaled 0 ∷ scaled 0 ∷ scaled 0 ∷ []) }
{}

/// What blocks may not be coded by.
pub fn refused_codings()
    ensures short { located 144 (packing_fault_under Open (take 24 coded_numbers) 4) ≡ Some (refusal 144 SectionLength 24) }
    ensures wide { located 144 (packing_fault_under Open (put coded_numbers 20 (hex "21")) 4) ≡ Some (refusal 163 BitWidth 33) }
    ensures signed { located 144 (packing_fault_under Open (put coded_numbers 22 (hex "0F")) 4) ≡ Some (refusal 165 Ccsds 15) }
    ensures any_block { located 144 (packing_fault_under Open (put coded_numbers 22 (hex "4E")) 4) ≡ Some (refusal 165 Ccsds 78) }
    ensures short_identifiers { located 144 (packing_fault_under Open (put coded_numbers 22 (hex "1E")) 4) ≡ Some (refusal 165 Ccsds 30) }
    ensures block { located 144 (packing_fault_under Open (put coded_numbers 23 (hex "07")) 4) ≡ Some (refusal 166 Ccsds 7) }
    ensures no_interval { located 144 (packing_fault_under Open (put coded_numbers 24 (hex "0000")) 4) ≡ Some (refusal 167 Ccsds 0) }
    ensures long_interval { located 144 (packing_fault_under Open (put coded_numbers 24 (hex "1001")) 4) ≡ Some (refusal 167 Ccsds 4097) }
{}

/// Bits that end within the block, a run past its interval, a sequence of 91 zeros, and a code that is too great.
pub fn items_at_fault()
    ensures short { data_fault coded_numbers (take 12 coded_values) ≡ Some (refusal 1 DataTooShort 12) }
    ensures run { data_fault four_bits (hex "00000007 07 0004") ≡ Some (refusal 1 BlockCode 1) }
    ensures sequence { data_fault four_bits (hex "00000012 07 10 0000000000000000000000 1E") ≡ Some (refusal 1 BlockCode 1) }
    ensures code { data_fault four_bits (hex "00000009 07 4001FC00") ≡ Some (refusal 1 ScaledRange 2) }
{}
