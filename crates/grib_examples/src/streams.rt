//! Streams of the worked messages among other octets.

ghost use Rattle.std.specs.Prelude.{◌≡◌, [], ◌∷◌, ◌++◌, codes, take, replicate};
ghost use Rattle.grib_base.specs.Rules.{refusal};
ghost use Rattle.grib_base.specs.declared.fault.Reason.TheVariants.{Truncated, TotalLength};
ghost use Rattle.grib_stream.specs.Stream.{stream, stream_of, message_after, Over, Refusing};
ghost use Rattle.grib_command.specs.Judging.{judge};
ghost use Rattle.grib_examples.specs.Hex.{hex, put};
ghost use Rattle.grib_examples.specs.Messages.{m1, m2};
ghost use Rattle.grib_examples.specs.Edition1.{g1};

/// An empty input, and inputs that end before a whole `GRIB`.
pub fn inputs_without_messages()
    ensures empty { stream judge [] ≡ stream_of [] (Over 0) }
    ensures one { stream judge (take 1 m1) ≡ stream_of [] (Over 1) }
    ensures two { stream judge (take 2 m1) ≡ stream_of [] (Over 2) }
    ensures three { stream judge (take 3 m1) ≡ stream_of [] (Over 3) }
{}

/// The plain message twice, after a bulletin's heading and before five zeros: the octets outside are
/// skipped and counted.
pub fn messages_among_other_octets()
    ensures found { stream judge (codes "SXXX01 EDZW\n" ++ m1 ++ m1 ++ replicate 5 0) ≡ stream_of (message_after 12 m1 ∷ message_after 195 m1 ∷ []) (Over 17) }
{}

/// A message after which a cut one stands.
pub fn cut_second_message()
    ensures refused { stream judge (m2 ++ take 100 m1) ≡ stream_of (message_after 0 m2 ∷ []) (Refusing (refusal 101 Truncated 100)) }
{}

/// A message of edition 1 between two of edition 2; and one whose total length, 0, is refused.
pub fn both_editions()
    ensures found { stream judge (m1 ++ g1 ++ m1) ≡ stream_of (message_after 0 m1 ∷ message_after 183 g1 ∷ message_after 271 m1 ∷ []) (Over 0) }
    ensures refused { stream judge (m1 ++ put m1 8 (hex "01")) ≡ stream_of (message_after 0 m1 ∷ []) (Refusing (refusal 5 TotalLength 0)) }
{}
