//! The lines that are printed of the worked messages.

ghost use Rattle.std.specs.Prelude.{◌≡◌, ◌++◌, codes, pos, negsuc};
ghost use Rattle.grib_base.specs.Rules.{refusal};
ghost use Rattle.grib_base.specs.declared.fault.Reason.TheVariants.{ReferenceNotFinite};
ghost use Rattle.grib_dyadic.specs.Reference.{binary};
ghost use Rattle.grib_text.specs.Lines.{check_line, total_line, list_line, reference_line, point_lines};
ghost use Rattle.grib_text.specs.Notes.{refusal_note};
ghost use Rattle.grib2_message.specs.Fields.{column_of};
ghost use Rattle.grib_examples.specs.Messages.{m1, m2};

/// `check` of the plain message, and of it twice after 12 octets and before 5.
pub fn check_lines()
    ensures message { check_line 1 0 2 183 1 ≡ codes "message 1 at 0 edition 2 octets 183 fields 1\n" }
    ensures total { total_line 1 1 0 ≡ codes "messages 1 fields 1 skipped 0\n" }
    ensures first { check_line 1 12 2 183 1 ≡ codes "message 1 at 12 edition 2 octets 183 fields 1\n" }
    ensures second { check_line 2 195 2 183 1 ≡ codes "message 2 at 195 edition 2 octets 183 fields 1\n" }
    ensures total_of_two { total_line 2 2 17 ≡ codes "messages 2 fields 2 skipped 17\n" }
{}

/// `list` and `dump` of the plain message.
pub fn dump_lines()
    ensures field { list_line m1 1 1 ≡ codes "1.1 ed=2 centre=98 time=2024-01-15T12:00:00 grid=3.0 points=4 product=4.0 param=0.0.0 unit=1 ahead=6 "
        ++ codes "surface=103:0:2 packing=5.0 bits=8 values=4\n" }
    ensures reference { reference_line (binary (negsuc 948) (negsuc 2)) (negsuc 2) (pos 1) ≡ codes "reference -949*2^-3 binary -3 decimal 1\n" }
    ensures points { point_lines 1 (column_of m1 1).points ≡ codes "1 0\n2 1\n3 2\n4 255\n" }
{}

/// `dump` of a field with a missing point.
pub fn missing_point_lines()
    ensures points { point_lines 1 (column_of m2 2).points ≡ codes "1 3\n2 missing\n3 4\n4 5\n" }
{}

/// The note of a refusal.
pub fn refusal_notes()
    ensures note { refusal_note 1 (refusal 155 ReferenceNotFinite 2139095040) ≡ codes "refused message 1 octet 155 ReferenceNotFinite 2139095040\n" }
{}
