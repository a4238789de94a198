//! Rules that no other law meets first, each tried on a section or a message with one change.

ghost use Rattle.std.specs.Prelude.{◌≡◌, ◌++◌, [], ◌∷◌, true, false, Some, None, take};
ghost use Rattle.grib_base.specs.declared.fault.Reason.TheVariants.{TotalLength, SectionLength, SectionOrder, PointCount, ListShape, FieldCount, Jpeg2000, Ccsds, PackingTemplate, ValueCount, BitmapIndicator, BitmapSize, GroupWidth, GroupShape, DataTooShort, FirstValueSign, ScaledRange};
ghost use Rattle.grib_base.specs.Rules.{refusal, first_fault, first_fault_at, located};
ghost use Rattle.grib2_sections.specs.Verdict.{Refused};
ghost use Rattle.grib2_sections.specs.Head.{head_rules};
ghost use Rattle.grib2_sections.specs.Identification.{identification_rules};
ghost use Rattle.grib2_grids.specs.Grid.{grid_rules, row_list};
ghost use Rattle.grib2_products.specs.Product.{product_rules, product_length};
ghost use Rattle.grib_bitmap.specs.Mask.{bitmap_rules, mask_of};
ghost use Rattle.grib_base.specs.declared.profile.Profile.TheVariants.{Stated};
ghost use Rattle.grib_packing.specs.Entries.{packing_fault, packing_fault_under, data_fault};
ghost use Rattle.grib2_message.specs.Acceptance.{verdict_2};
ghost use Rattle.grib_examples.specs.Hex.{hex, put};
ghost use Rattle.grib_examples.specs.Messages.{identification, grid, product, representation, no_bitmap, marks_only, differences, interval};
ghost use Rattle.grib_examples.specs.Variations.{steep, other_grid_between, ends_after_grid};

/// A message of edition 1 that is too short, and one that is not.
pub fn edition_1_total_length()
    ensures too_short { first_fault (head_rules (hex "47524942 00000B 01")) ≡ Some (refusal 5 TotalLength 11) }
    ensures least { first_fault (head_rules (hex "47524942 00000C 01")) ≡ None }
{}

/// Sections that end before their template does.
pub fn short_sections()
    ensures identification { first_fault_at 17 (identification_rules (take 20 identification)) ≡ Some (refusal 17 SectionLength 20) }
    ensures grid { first_fault_at 38 (grid_rules (take 13 grid)) ≡ Some (refusal 38 SectionLength 13) }
    ensures grid_template { first_fault_at 38 (grid_rules (take 71 grid)) ≡ Some (refusal 38 SectionLength 71) }
    ensures product { first_fault_at 110 (product_rules (take 8 product) 1) ≡ Some (refusal 110 SectionLength 8) }
    ensures packing { located 144 (packing_fault (take 10 representation) 4) ≡ Some (refusal 144 SectionLength 10) }
    ensures packing_template { located 144 (packing_fault (take 20 representation) 4) ≡ Some (refusal 144 SectionLength 20) }
    ensures complex_template { located 144 (packing_fault (take 46 marks_only) 4) ≡ Some (refusal 144 SectionLength 46) }
    ensures bitmap { first_fault_at 165 (bitmap_rules (take 5 no_bitmap) 4 4 None) ≡ Some (refusal 165 SectionLength 5) }
{}

/// The end mark after a section that may not be the last.
pub fn early_end_mark()
    ensures refused { verdict_2 ends_after_grid ≡ Refused (refusal 110 SectionOrder 8) }
{}

/// Rows of points with no number of rows, and rows of one octet each.
pub fn row_lists()
    ensures none { first_fault_at 38 (grid_rules (put (put grid 11 (hex "02 01")) 35 (hex "FFFFFFFF"))) ≡ Some (refusal 72 ListShape 4294967295) }
    ensures two { row_list (put grid 11 (hex "01 01") ++ hex "01 03") ≡ 1 ∷ 3 ∷ [] }
    ensures too_many { first_fault_at 38 (grid_rules (put grid 7 (hex "02000001"))) ≡ Some (refusal 44 PointCount 33554433) }
{}

/// The last product section that a message may have, and the next one.
pub fn product_count()
    ensures last { first_fault_at 110 (product_rules product 4096) ≡ None }
    ensures next { first_fault_at 110 (product_rules product 4097) ≡ Some (refusal 110 FieldCount 4097) }
    ensures length { product_length product ≡ 34 }
    ensures interval_length { product_length interval ≡ 61 }
{}

/// Other packings that are left out, and more values than points.
pub fn refused_packings()
    ensures jpeg_2000 { located 144 (packing_fault_under Stated (put representation 10 (hex "0028")) 4) ≡ Some (refusal 153 Jpeg2000 40) }
    ensures ccsds { located 144 (packing_fault_under Stated (put representation 10 (hex "002A")) 4) ≡ Some (refusal 153 Ccsds 42) }
    ensures matrix { located 144 (packing_fault_under Stated (put representation 10 (hex "0001")) 4) ≡ Some (refusal 153 PackingTemplate 1) }
    ensures values { located 144 (packing_fault representation 3) ≡ Some (refusal 149 ValueCount 4) }
{}

/// Widths and lengths of groups that take more than 32 bits.
pub fn refused_group_fields()
    ensures width_reference { located 144 (packing_fault (put marks_only 36 (hex "21")) 4) ≡ Some (refusal 179 GroupWidth 33) }
    ensures width_bits { located 144 (packing_fault (put marks_only 37 (hex "21")) 4) ≡ Some (refusal 180 GroupWidth 33) }
    ensures length_bits { located 144 (packing_fault (put marks_only 47 (hex "21")) 4) ≡ Some (refusal 190 GroupShape 33) }
    ensures lists_cut { located 197 (data_fault marks_only (hex "00000007 07 00 80")) ≡ Some (refusal 197 DataTooShort 7) }
{}

/// Bitmaps that are predefined, that have not the grid's points, or not as many as there are values.
pub fn refused_bitmaps()
    ensures predefined { first_fault_at 165 (bitmap_rules (put no_bitmap 6 (hex "05")) 4 4 None) ≡ Some (refusal 170 BitmapIndicator 5) }
    ensures all_present { first_fault_at 165 (bitmap_rules no_bitmap 4 3 None) ≡ Some (refusal 170 ValueCount 4) }
    ensures three_present { mask_of (hex "00000007 06 00 B0") 4 None ≡ true ∷ false ∷ true ∷ true ∷ [] }
    ensures two_values { first_fault_at 165 (bitmap_rules (hex "00000007 06 00 B0") 4 2 None) ≡ Some (refusal 170 ValueCount 3) }
    ensures other_grid { verdict_2 other_grid_between ≡ Refused (refusal 312 BitmapSize 4) }
{}

/// The second of two first values with its top bit set.
pub fn signed_second_value()
    ensures refused { located 199 (data_fault (put differences 48 (hex "02")) (hex "0000000E 07 05 85 8A 02C0 0C 0410 A0")) ≡ Some (refusal 205 FirstValueSign 2) }
{}

/// Second differences of 2^32 - 1 take the 23,172nd of 24,000 values past 2^60.
pub fn scaled_range()
    ensures refused { located 197 (data_fault steep (hex "0000000A 07 FFFFFFFF 00")) ≡ Some (refusal 197 ScaledRange 23172) }
{}
