//! What is answered to a job that changes worked messages, or makes one.

ghost use Rattle.std.specs.Prelude.{◌≡◌, [], ◌++◌, codes, drop, length};
ghost use Rattle.grib_reasons.specs.declared.cause.Cause.TheVariants.{OutOfRange, SecondaryMissing};
ghost use Rattle.grib_stream.specs.Acts.{written};
ghost use Rattle.grib_packing.specs.declared.target.RepackTarget.TheVariants.{Simple, Complex, Spatial};
ghost use Rattle.grib_command.specs.declared.job.Job.TheVariants.{Repack, Make};
ghost use Rattle.grib_run_spec.specs.Tasks.{answer};
ghost use Rattle.grib_examples.specs.Hex.{hex};
ghost use Rattle.grib_examples.specs.Messages.{m1, m3, c1, c2};
ghost use Rattle.grib_examples.specs.Changes.{changed_to, kept_after, c1_in_simple, sevens, sevens_in_groups, second_differences, in_second_differences};

/// A message that is already packed as we pack stays as it is, octet for octet.
pub fn answers_in_the_same_packing()
    ensures simple { answer (Repack Simple) m1 ≡ changed_to m1 (codes "messages 1 fields 1 written 183\n") }
    ensures marks { answer (Repack Complex) c2 ≡ changed_to c2 (codes "messages 1 fields 1 written 209\n") }
    ensures differences { answer (Repack (Spatial 1)) m3 ≡ changed_to m3 (codes "messages 1 fields 1 written 215\n") }
    ensures two { answer (Repack Simple) (m1 ++ m1) ≡ changed_to (m1 ++ m1) (codes "messages 2 fields 2 written 366\n") }
{}

/// A bitmap becomes a reserved code of the groups: of 3 bits where the greatest number is 6, and of 4 bits
/// where it is 7.
pub fn answers_in_groups()
    ensures three_bits { answer (Repack Complex) c1_in_simple ≡ changed_to c1 (codes "messages 1 fields 1 written 209\n") }
    ensures four_bits { answer (Repack Complex) sevens ≡ changed_to sevens_in_groups (codes "messages 1 fields 1 written 209\n") }
{}

/// Second differences that are all the same take no bits.
pub fn answers_in_second_differences()
    ensures { answer (Repack (Spatial 2)) second_differences ≡ changed_to in_second_differences (codes "messages 1 fields 1 written 211\n") }
{}

/// What simple packing cannot keep, in the first message and in the second.
pub fn answers_with_messages_kept()
    ensures negative { answer (Repack Simple) m3 ≡ kept_after [] 1 (OutOfRange 1 2) (codes "kept message 1 OutOfRange field 1 point 2\n") }
    ensures secondary { answer (Repack Simple) c2 ≡ kept_after [] 1 (SecondaryMissing 1 2) (codes "kept message 1 SecondaryMissing field 1 point 2\n") }
    ensures second { answer (Repack Simple) (m1 ++ m3) ≡ kept_after m1 2 (OutOfRange 1 2) (codes "kept message 2 OutOfRange field 1 point 2\n") }
{}

/// The message of two by two points that is made from 1, in simple packing and in groups.
pub fn answers_to_make()
    ensures simple_note { (answer (Make 1 2 2 Simple) []).note ≡ codes "made 183 written 183 present 4 sum 368\n" }
    ensures simple_octets { length (written (answer (Make 1 2 2 Simple) []).acts) ≡ 183 }
    ensures simple_values { drop 170 (written (answer (Make 1 2 2 Simple) []).acts) ≡ hex "00000009 07 06 7E 41 AB 37373737" }
    ensures complex_octets { length (written (answer (Make 1 2 2 Complex) []).acts) ≡ 212 }
    ensures complex_values { drop 196 (written (answer (Make 1 2 2 Complex) []).acts)
        ≡ hex "0000000C 07 06 80 0C 00 78 3B A5 37373737" }
{}
