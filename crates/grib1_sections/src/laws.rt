//! Laws over the definitions.

ghost use Rattle.std.specs.Prelude.{◌≡◌, ◌≢◌, ℕ, ◌+◌, ◌<◌, ◌≤◌, List, ◌++◌, length, take, All};
ghost use Rattle.grib_base.specs.declared.fault.Fault.{Fault};
ghost use Rattle.grib_base.specs.declared.fault.Reason.TheVariants.{Truncated};
ghost use Rattle.grib2_sections.specs.Head.{indicator, edition, total_length_1};
ghost use Rattle.grib2_sections.specs.Verdict.{Accepted, Refused};
ghost use Rattle.grib1_sections.specs.Acceptance.{verdict_1, identification, grid, bitmap, data_section};
ghost use Rattle.grib1_sections.specs.Grammar.{Sections, Grammar1};

/// What is accepted is exactly what is in the grammar, with its total length, whatever comes after it.
/// The sections of a message in the grammar are those that are found in it.
pub fn accepted_is_in_the_grammar()
    ensures accepted { (rest : List ℕ) (total : ℕ) → All (λ octet. octet < 256) (take total rest)
        → take 4 rest ≡ indicator → edition rest ≡ 1 → verdict_1 rest ≡ Accepted total
        → (sections : Sections) × (total ≤ length rest) × Grammar1 (take total rest) sections }
    ensures in_grammar { (message after : List ℕ) (sections : Sections)
        → Grammar1 message sections → verdict_1 (message ++ after) ≡ Accepted (length message) }
    ensures its_sections { (message : List ℕ) (sections : Sections) → Grammar1 message sections
        → (identification message ≡ sections.identification) × (grid message ≡ sections.grid)
        × (bitmap message ≡ sections.bitmap) × (data_section message ≡ sections.data_section) }
{}

/// What is said of octets stays said whatever follows them: an acceptance, and each refusal but that of
/// octets that end too early.
pub fn verdict_stays()
    ensures accepted { (octets more : List ℕ) (total : ℕ) → edition octets ≡ 1
        → verdict_1 octets ≡ Accepted total → verdict_1 (octets ++ more) ≡ Accepted total }
    ensures refused { (octets more : List ℕ) (fault : Fault) → edition octets ≡ 1
        → verdict_1 octets ≡ Refused fault → fault.reason ≢ Truncated
        → verdict_1 (octets ++ more) ≡ Refused fault }
{}

/// An accepted length is the stated one, at least 12, and its octets are there. The acceptance rests on
/// them alone.
pub fn accepted_length()
    ensures stated { (octets : List ℕ) (total : ℕ)
        → verdict_1 octets ≡ Accepted total → total_length_1 octets ≡ total }
    ensures least { (octets : List ℕ) (total : ℕ) → edition octets ≡ 1
        → verdict_1 octets ≡ Accepted total → 12 ≤ total }
    ensures there { (octets : List ℕ) (total : ℕ) → edition octets ≡ 1
        → verdict_1 octets ≡ Accepted total → total ≤ length octets }
    ensures alone { (octets : List ℕ) (total : ℕ) → edition octets ≡ 1
        → verdict_1 octets ≡ Accepted total → verdict_1 (take total octets) ≡ Accepted total }
{}
