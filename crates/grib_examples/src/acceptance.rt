//! Which of the worked messages are accepted, and why others are refused.

ghost use Rattle.std.specs.Prelude.{◌≡◌, ◌++◌, take, length, map};
ghost use Rattle.std.specs.List.{range_with_len};
ghost use Rattle.grib_base.specs.declared.fault.Reason.TheVariants.{BitWidth, BitmapSize, DataTooShort, DifferenceOrder, Edition, EndMark, ExtraOctets, FirstValueSign, GridSource, GridTemplate, GroupCount, GroupShape, GroupWidth, LengthDisagrees, ListShape, MissingManagement, NoEarlierBitmap, PngPacked, PointCount, ProductTemplate, ReferenceNotFinite, SectionLength, SectionOrder, TotalLength};
ghost use Rattle.grib_base.specs.Rules.{refusal};
ghost use Rattle.grib2_sections.specs.Verdict.{Accepted, Refused};
ghost use Rattle.grib2_message.specs.Acceptance.{verdict_2};
ghost use Rattle.grib_examples.specs.Hex.{hex, put};
ghost use Rattle.grib_examples.specs.Messages.{m1, m2, m3, c1, c2, t1, t2, w};
ghost use Rattle.grib_examples.specs.Variations.{truncated_after, bitmap_without_bits, reduced_gaussian, reduced_rotated, reduced_rotated_cut};

/// The worked messages have their lengths, and each is accepted as a whole.
pub fn worked_messages()
    ensures m1_octets { length m1 ≡ 183 }
    ensures m1 { verdict_2 m1 ≡ Accepted 183 }
    ensures m2_octets { length m2 ≡ 252 }
    ensures m2 { verdict_2 m2 ≡ Accepted 252 }
    ensures m3_octets { length m3 ≡ 215 }
    ensures m3 { verdict_2 m3 ≡ Accepted 215 }
    ensures c1_octets { length c1 ≡ 209 }
    ensures c1 { verdict_2 c1 ≡ Accepted 209 }
    ensures c2_octets { length c2 ≡ 209 }
    ensures c2 { verdict_2 c2 ≡ Accepted 209 }
    ensures t1_octets { length t1 ≡ 195 }
    ensures t1 { verdict_2 t1 ≡ Accepted 195 }
    ensures t2_octets { length t2 ≡ 210 }
    ensures t2 { verdict_2 t2 ≡ Accepted 210 }
    ensures w_octets { length w ≡ 199 }
    ensures w { verdict_2 w ≡ Accepted 199 }
{}

/// What follows a message does not change what it is.
pub fn message_before_others()
    ensures accepted { verdict_2 (m1 ++ m2) ≡ Accepted 183 }
{}

/// A message that is cut after some octets, from 4 on, is refused at the next one.
pub fn every_cut()
    ensures plain { map (λ k. verdict_2 (take k m1)) (range_with_len 4 179) ≡ map truncated_after (range_with_len 4 179) }
    ensures two_fields { map (λ k. verdict_2 (take k m2)) (range_with_len 4 248) ≡ map truncated_after (range_with_len 4 248) }
    ensures differenced { map (λ k. verdict_2 (take k m3)) (range_with_len 4 211) ≡ map truncated_after (range_with_len 4 211) }
{}

/// An edition that is neither 1 nor 2.
pub fn other_edition()
    ensures refused { verdict_2 (put m1 8 (hex "03")) ≡ Refused (refusal 8 Edition 3) }
{}

/// A reference value that is not finite is refused at its first octet.
pub fn infinite_reference()
    ensures refused { verdict_2 (put m1 155 (hex "7F800000")) ≡ Refused (refusal 155 ReferenceNotFinite 2139095040) }
{}

/// A total length that is one too long, and one too short.
pub fn wrong_total_length()
    ensures too_long { verdict_2 (put m1 9 (hex "00000000000000B8")) ≡ Refused (refusal 184 LengthDisagrees 1) }
    ensures too_short { verdict_2 (put m1 9 (hex "00000000000000B6")) ≡ Refused (refusal 171 SectionLength 9) }
{}

/// A packing that is left out has a reason of its own.
pub fn png_packing()
    ensures refused { verdict_2 (put m1 153 (hex "0029")) ≡ Refused (refusal 153 PngPacked 41) }
{}

/// The bitmap of an earlier field, where there is none.
pub fn no_earlier_bitmap()
    ensures refused { verdict_2 (put m1 170 (hex "FE")) ≡ Refused (refusal 170 NoEarlierBitmap 254) }
{}

/// A bitmap with fewer bits than points.
pub fn short_bitmap()
    ensures refused { verdict_2 (bitmap_without_bits) ≡ Refused (refusal 165 BitmapSize 6) }
{}

/// A reduced Gaussian grid: its rows add up to the points, or not.
pub fn reduced_grid()
    ensures accepted { verdict_2 (reduced_gaussian (hex "0001 0003")) ≡ Accepted 187 }
    ensures too_few { verdict_2 (reduced_gaussian (hex "0001 0002")) ≡ Refused (refusal 44 PointCount 3) }
{}

/// A reduced rotated grid: its list begins after a longer template, and does not go past the section.
pub fn reduced_rotated_grid()
    ensures accepted { verdict_2 reduced_rotated ≡ Accepted 199 }
    ensures list_cut { verdict_2 (reduced_rotated_cut) ≡ Refused (refusal 122 ListShape 2) }
{}

/// Grids that are refused.
pub fn refused_grids()
    ensures source { verdict_2 (put m1 43 (hex "01")) ≡ Refused (refusal 43 GridSource 1) }
    ensures template { verdict_2 (put m1 50 (hex "0002")) ≡ Refused (refusal 50 GridTemplate 2) }
    ensures template_too_long { verdict_2 (put m1 50 (hex "001E")) ≡ Refused (refusal 38 SectionLength 72) }
    ensures list_meaning { verdict_2 (put m1 48 (hex "0103")) ≡ Refused (refusal 49 ListShape 3) }
    ensures list_octets { verdict_2 (put m1 48 (hex "0501")) ≡ Refused (refusal 48 ListShape 5) }
{}

/// Products that are refused.
pub fn refused_products()
    ensures template { verdict_2 (put m1 117 (hex "0005")) ≡ Refused (refusal 117 ProductTemplate 5) }
    ensures template_too_long { verdict_2 (put m1 117 (hex "0008")) ≡ Refused (refusal 110 SectionLength 34) }
    ensures coordinate_value { verdict_2 (put m1 115 (hex "0001")) ≡ Refused (refusal 110 SectionLength 34) }
{}

/// Complex packings that are refused.
pub fn refused_groups()
    ensures management { verdict_2 (put c1 166 (hex "03")) ≡ Refused (refusal 166 MissingManagement 3) }
    ensures group_count { verdict_2 (put c1 175 (hex "00000004")) ≡ Refused (refusal 175 GroupCount 4) }
    ensures group_width { verdict_2 (put c1 179 (hex "20")) ≡ Refused (refusal 203 GroupWidth 1) }
    ensures numbers_cut { verdict_2 (put c1 179 (hex "01")) ≡ Refused (refusal 197 DataTooShort 9) }
    ensures lengths_too_short { verdict_2 (put c1 186 (hex "00000002")) ≡ Refused (refusal 197 GroupShape 1) }
    ensures lengths_too_long { verdict_2 (put c1 186 (hex "00000004")) ≡ Refused (refusal 197 GroupShape 1) }
{}

/// Spatial differences that are refused.
pub fn refused_differences()
    ensures order { verdict_2 (put m3 191 (hex "03")) ≡ Refused (refusal 191 DifferenceOrder 3) }
    ensures extra_octets { verdict_2 (put m3 192 (hex "05")) ≡ Refused (refusal 192 ExtraOctets 5) }
    ensures first_value { verdict_2 (put m3 204 (hex "85")) ≡ Refused (refusal 204 FirstValueSign 1) }
    ensures group_count { verdict_2 (put m3 175 (hex "FFFFFFFF")) ≡ Refused (refusal 175 GroupCount 4294967295) }
{}

/// Total lengths at and past the limits.
pub fn hostile_total_lengths()
    ensures below_the_least { verdict_2 (put m1 9 (hex "0000000000000013")) ≡ Refused (refusal 9 TotalLength 19) }
    ensures the_least { verdict_2 (put m1 9 (hex "0000000000000014")) ≡ Refused (refusal 17 EndMark 21) }
    ensures the_most { verdict_2 (put m1 9 (hex "0000000010000000")) ≡ Refused (refusal 184 LengthDisagrees 268435273) }
    ensures over_the_most { verdict_2 (put m1 9 (hex "0000000010000001")) ≡ Refused (refusal 9 TotalLength 268435457) }
    ensures all_ones { verdict_2 (put m1 9 (hex "FFFFFFFFFFFFFFFF")) ≡ Refused (refusal 9 TotalLength 18446744073709551615) }
{}

/// Frames of sections that no writer makes.
pub fn hostile_frames()
    ensures length_4 { verdict_2 (put m1 17 (hex "00000004")) ≡ Refused (refusal 17 SectionLength 4) }
    ensures length_all_ones { verdict_2 (put m1 17 (hex "FFFFFFFF")) ≡ Refused (refusal 17 SectionLength 4294967295) }
    ensures order { verdict_2 (put m1 21 (hex "02")) ≡ Refused (refusal 21 SectionOrder 2) }
    ensures end_mark { verdict_2 (put m1 180 (hex "37373738")) ≡ Refused (refusal 180 EndMark 926365496) }
{}

/// Numbers of points and widths of packed numbers that no field has.
pub fn hostile_counts()
    ensures no_points { verdict_2 (put m1 44 (hex "00000000")) ≡ Refused (refusal 44 PointCount 0) }
    ensures most_points { verdict_2 (put m1 68 (hex "FFFFFFFFFFFFFFFF")) ≡ Refused (refusal 44 PointCount 18446744065119617025) }
    ensures width_255 { verdict_2 (put m1 163 (hex "FF")) ≡ Refused (refusal 163 BitWidth 255) }
    ensures width_32 { verdict_2 (put m1 163 (hex "20")) ≡ Refused (refusal 171 DataTooShort 9) }
{}

/// Numbers of 48 bits at most.
pub fn too_wide_numbers()
    ensures refused { verdict_2 (put w 163 (hex "31")) ≡ Refused (refusal 163 BitWidth 49) }
{}

/// A section numbered 8 is no end mark: it follows no section, and is refused at its number.
pub fn section_numbered_8()
    ensures refused { verdict_2 (put ((take 179 m1 ++ hex "0000000508") ++ hex "37373737") 9 (hex "00000000000000BC")) ≡ Refused (refusal 184 SectionOrder 8) }
{}
