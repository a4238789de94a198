//! Which of the worked messages of edition 1 are accepted, and why others are refused.

ghost use Rattle.std.specs.Prelude.{◌≡◌, ◌++◌, take, length};
ghost use Rattle.grib_base.specs.declared.fault.Reason.TheVariants.{BitmapSize, ExtraFlags, GridType, Harmonics, ListShape, NoGridSection, SecondOrder, SectionLength, TotalLength, Truncated};
ghost use Rattle.grib_base.specs.Rules.{refusal};
ghost use Rattle.grib2_sections.specs.Verdict.{Accepted, Refused};
ghost use Rattle.grib1_sections.specs.Acceptance.{verdict_1, points_of, values_of};
ghost use Rattle.grib_examples.specs.Hex.{hex, put};
ghost use Rattle.grib_examples.specs.Messages.{m1};
ghost use Rattle.grib_examples.specs.Edition1.{g1, g1_wide, g1_masked, g1_reduced};

/// The worked messages have their lengths, and each is accepted as a whole, whatever comes after it.
pub fn worked_messages()
    ensures g1_octets { length g1 ≡ 88 }
    ensures g1 { verdict_1 g1 ≡ Accepted 88 }
    ensures before_another { verdict_1 (g1 ++ m1) ≡ Accepted 88 }
    ensures wide { verdict_1 g1_wide ≡ Accepted 108 }
    ensures masked { verdict_1 g1_masked ≡ Accepted 95 }
    ensures masked_points { points_of g1_masked ≡ 4 }
    ensures masked_values { values_of g1_masked ≡ 3 }
    ensures reduced { verdict_1 g1_reduced ≡ Accepted 96 }
    ensures reduced_points { points_of g1_reduced ≡ 4 }
{}

/// Each of these changes is refused at its octet.
pub fn refused_changes()
    ensures eleven { verdict_1 (put g1 5 (hex "00000B")) ≡ Refused (refusal 5 TotalLength 11) }
    ensures shorter { verdict_1 (put g1 5 (hex "000057")) ≡ Refused (refusal 69 SectionLength 16) }
    ensures no_grid { verdict_1 (put g1 16 (hex "00")) ≡ Refused (refusal 16 NoGridSection 0) }
    ensures space_view { verdict_1 (put g1 42 (hex "32")) ≡ Refused (refusal 42 GridType 50) }
    ensures harmonics { verdict_1 (put g1 72 (hex "88")) ≡ Refused (refusal 72 Harmonics 136) }
    ensures second_order { verdict_1 (put g1 72 (hex "48")) ≡ Refused (refusal 72 SecondOrder 72) }
    ensures extra_flags { verdict_1 (put g1 72 (hex "18")) ≡ Refused (refusal 72 ExtraFlags 24) }
    ensures no_list { verdict_1 (put g1 43 (hex "FFFF")) ≡ Refused (refusal 41 ListShape 255) }
    ensures long_list { verdict_1 (put g1_reduced 45 (hex "0003")) ≡ Refused (refusal 41 ListShape 33) }
    ensures small_bitmap { verdict_1 (put g1_masked 45 (hex "0005")) ≡ Refused (refusal 69 BitmapSize 7) }
{}

/// A message that is cut after some octets is refused at the next one.
pub fn cut_messages()
    ensures after_8 { verdict_1 (take 8 g1) ≡ Refused (refusal 9 Truncated 8) }
    ensures after_11 { verdict_1 (take 11 g1) ≡ Refused (refusal 12 Truncated 11) }
    ensures after_50 { verdict_1 (take 50 g1) ≡ Refused (refusal 51 Truncated 50) }
    ensures after_84 { verdict_1 (take 84 g1) ≡ Refused (refusal 85 Truncated 84) }
    ensures after_87 { verdict_1 (take 87 g1) ≡ Refused (refusal 88 Truncated 87) }
{}
