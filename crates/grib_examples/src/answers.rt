//! What is answered to a job whose input is worked messages, or others.

ghost use Rattle.std.specs.Prelude.{◌≡◌, None, Some, false, [], ◌++◌, codes, take, map, replicate};
ghost use Rattle.std.specs.List.{range_with_len};
ghost use Rattle.grib_base.specs.declared.fault.Reason.TheVariants.{Edition, GridType, PngPacked, ReferenceNotFinite};
ghost use Rattle.grib_base.specs.Rules.{refusal};
ghost use Rattle.grib_reasons.specs.declared.cause.Cause.TheVariants.{EditionOne, DecimalRange};
ghost use Rattle.grib_packing.specs.declared.target.RepackTarget.TheVariants.{Simple};
ghost use Rattle.grib_command.specs.declared.job.Job.TheVariants.{Check, List, Stats, Dump, Set, Repack};
ghost use Rattle.grib_dates.specs.declared.rule.Dates.TheVariants.{Any};
ghost use Rattle.grib_run_spec.specs.Tasks.{answer};
ghost use Rattle.grib_examples.specs.Hex.{hex, put};
ghost use Rattle.grib_examples.specs.Messages.{m1, m2, m3, c2};
ghost use Rattle.grib_examples.specs.Edition1.{g1};
ghost use Rattle.grib_examples.specs.Variations.{cut_answer, refused_after, kept_by, done_with, no_bits};

/// `check` of nothing, of the plain message, and of it twice after a bulletin's heading and before five
/// zeros.
pub fn answer_to_check()
    ensures nothing { answer Check [] ≡ done_with [] (codes "messages 0 fields 0 skipped 0\n") }
    ensures short { answer Check (take 3 m1) ≡ done_with [] (codes "messages 0 fields 0 skipped 3\n") }
    ensures plain { answer Check m1 ≡ done_with (codes "message 1 at 0 edition 2 octets 183 fields 1\n") (codes "messages 1 fields 1 skipped 0\n") }
    ensures twice { answer Check (codes "SXXX01 EDZW\n" ++ m1 ++ m1 ++ replicate 5 0)
        ≡ done_with (codes "message 1 at 12 edition 2 octets 183 fields 1\nmessage 2 at 195 edition 2 octets 183 fields 1\n") (codes "messages 2 fields 2 skipped 17\n") }
{}

/// `list` of a message with two fields after another message.
pub fn answer_to_list()
    ensures { answer List (m1 ++ m2) ≡ done_with (codes "1.1 ed=2 centre=98 time=2024-01-15T12:00:00 grid=3.0 points=4 product=4.0 param=0.0.0 unit=1 ahead=6 surface=103:0:2 packing=5.0 bits=8 values=4\n"
        ++ codes "2.1 ed=2 centre=98 time=2024-01-15T12:00:00 grid=3.0 points=4 product=4.0 param=0.0.0 unit=1 ahead=6 surface=103:0:2 packing=5.0 bits=8 values=3\n"
        ++ codes "2.2 ed=2 centre=98 time=2024-01-15T12:00:00 grid=3.0 points=4 product=4.0 param=0.0.0 unit=1 ahead=6 surface=103:0:2 packing=5.0 bits=8 values=3\n") [] }
{}

/// `dump` of the plain message, of it with numbers of 0 bits, of two fields with a bitmap, of spatial
/// differencing, and of both kinds of missing values.
pub fn answer_to_dump()
    ensures plain { answer (Dump None false) m1 ≡ done_with (codes "1.1 ed=2 centre=98 time=2024-01-15T12:00:00 grid=3.0 points=4 product=4.0 param=0.0.0 unit=1 "
        ++ codes "ahead=6 surface=103:0:2 packing=5.0 bits=8 values=4\nreference -949*2^-3 binary -3 decimal 1\n1 0\n2 1\n3 2\n4 255\n") [] }
    ensures no_bits { answer (Dump None false) no_bits ≡ done_with (codes "1.1 ed=2 centre=98 time=2024-01-15T12:00:00 grid=3.0 points=4 product=4.0 param=0.0.0 unit=1 "
        ++ codes "ahead=6 surface=103:0:2 packing=5.0 bits=0 values=4\nreference -949*2^-3 binary -3 decimal 1\n1 0\n2 0\n3 0\n4 0\n") [] }
    ensures two_fields { answer (Dump None false) m2 ≡ done_with (codes "1.1 ed=2 centre=98 time=2024-01-15T12:00:00 grid=3.0 points=4 product=4.0 param=0.0.0 unit=1 "
        ++ codes "ahead=6 surface=103:0:2 packing=5.0 bits=8 values=3\nreference -949*2^-3 binary -3 decimal 1\n1 0\n2 missing\n3 1\n4 2\n"
        ++ codes "1.2 ed=2 centre=98 time=2024-01-15T12:00:00 grid=3.0 points=4 product=4.0 param=0.0.0 unit=1 "
        ++ codes "ahead=6 surface=103:0:2 packing=5.0 bits=8 values=3\nreference -949*2^-3 binary -3 decimal 1\n1 3\n2 missing\n3 4\n4 5\n") [] }
    ensures differences { answer (Dump None false) m3 ≡ done_with (codes "1.1 ed=2 centre=98 time=2024-01-15T12:00:00 grid=3.0 points=4 product=4.0 param=0.0.0 unit=1 "
        ++ codes "ahead=6 surface=103:0:2 packing=5.3 bits=5 values=4\nreference -949*2^-3 binary -3 decimal 1\n1 5\n2 -5\n3 1\n4 2\n") [] }
    ensures marks { answer (Dump None false) c2 ≡ done_with (codes "1.1 ed=2 centre=98 time=2024-01-15T12:00:00 grid=3.0 points=4 product=4.0 param=0.0.0 unit=1 "
        ++ codes "ahead=6 surface=103:0:2 packing=5.2 bits=2 values=4\nreference -949*2^-3 binary -3 decimal 1\n1 missing\n2 missing2\n3 missing\n4 missing2\n") [] }
{}

/// `stats` of two fields with a bitmap, and of both kinds of missing values.
pub fn answer_to_stats()
    ensures two_fields { answer Stats m2 ≡ done_with (codes "1.1 present 3 missing 1 missing2 0 least 0 at 1 greatest 2 at 4\nreference -949*2^-3 binary -3 decimal 1\n"
        ++ codes "1.2 present 3 missing 1 missing2 0 least 3 at 1 greatest 5 at 4\nreference -949*2^-3 binary -3 decimal 1\n") [] }
    ensures marks { answer Stats c2 ≡ done_with (codes "1.1 present 0 missing 2 missing2 2\nreference -949*2^-3 binary -3 decimal 1\n") [] }
{}

/// `dump` of the plain message with three decimals, and of it with a binary scale factor of 32767, of which the
/// second point has no text.
pub fn answer_to_dump_with_decimals()
    ensures three { answer (Dump (Some 3) false) m1 ≡ done_with (codes "1.1 ed=2 centre=98 time=2024-01-15T12:00:00 grid=3.0 points=4 product=4.0 param=0.0.0 unit=1 "
        ++ codes "ahead=6 surface=103:0:2 packing=5.0 bits=8 values=4\nreference -949*2^-3 binary -3 decimal 1\n1 -11.862\n2 -11.850\n3 -11.838\n4 -8.675\n") [] }
    ensures too_large { answer (Dump (Some 0) false) (put m1 159 (hex "7FFF")) ≡ kept_by (DecimalRange 1 2) }
{}

/// A message that ends too early, is of no edition, or is refused by a section; and one that is refused
/// after another was answered.
pub fn answers_with_refusals()
    ensures cut { map (λ k. answer Check (take k m1)) (range_with_len 4 12) ≡ map cut_answer (range_with_len 4 12) }
    ensures cut_later { answer List (take 182 m1) ≡ cut_answer 182 }
    ensures edition { answer Check (put m1 8 (hex "03")) ≡ refused_after [] 1 (refusal 8 Edition 3) }
    ensures reference { answer (Dump None false) (put m1 155 (hex "7F800000")) ≡ refused_after [] 1 (refusal 155 ReferenceNotFinite 2139095040) }
    ensures second { answer Check (m1 ++ put m1 153 (hex "0029")) ≡ refused_after (codes "message 1 at 0 edition 2 octets 183 fields 1\n") 2 (refusal 153 PngPacked 41) }
{}

/// A message of edition 1 is read as one of edition 2 is, and not changed by the commands that change messages.
pub fn answers_to_edition_1()
    ensures check { answer Check (m1 ++ g1)
        ≡ done_with (codes "message 1 at 0 edition 2 octets 183 fields 1\nmessage 2 at 183 edition 1 octets 88 fields 1\n") (codes "messages 2 fields 2 skipped 0\n") }
    ensures list { answer List g1 ≡ done_with (codes "1.1 ed=1 centre=98 time=2024-01-15T12:00 grid=0 points=4 param=2.11 unit=1 range=0 "
        ++ codes "p1=6 p2=0 level=100:500 bits=8 values=4\n") [] }
    ensures dump { answer (Dump None false) g1 ≡ done_with (codes "1.1 ed=1 centre=98 time=2024-01-15T12:00 grid=0 points=4 param=2.11 unit=1 range=0 "
        ++ codes "p1=6 p2=0 level=100:500 bits=8 values=4\nreference -949*2^-3 binary -3 decimal 1\n1 0\n2 1\n3 2\n4 255\n") [] }
    ensures repack { answer (Repack Simple) g1 ≡ kept_by EditionOne }
    ensures set { answer (Set [] Any) g1 ≡ kept_by EditionOne }
    ensures grid_type { answer Check (put g1 42 (hex "32")) ≡ refused_after [] 1 (refusal 42 GridType 50) }
{}
