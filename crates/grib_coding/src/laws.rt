//! Laws over the definitions.

ghost use Rattle.std.specs.Prelude.{◌≡◌, ℕ, ◌+◌, ◌-◌, ◌<◌, ◌≤◌, true, false, List, [], ◌∷◌, All};
ghost use Rattle.grib_coding.specs.declared.coding.Coding as coding;
ghost use Rattle.grib_coding.specs.Items.{Run, covered};
ghost use Rattle.grib_coding.specs.Mapped.{mapped, unmapped, reach, half, halves, codes_after, HaveCodes};
ghost use Rattle.grib_coding.specs.Numbers.{Told, AreTold, numbers_told};
ghost use Rattle.grib_coding.specs.Runs.{run_room, run_number};

/// After each number the codes of the numbers from 0 to `most` are the numbers from 0 to `most`, each once.
pub fn each_code_once()
    ensures within { (most before number : ℕ) → before ≤ most → number ≤ most → mapped most before number ≤ most }
    ensures each { (most before code : ℕ) → before ≤ most → code ≤ most
        → (number : ℕ) × (number ≤ most) × (mapped most before number ≡ code) }
    ensures once { (most before one other : ℕ) → before ≤ most → one ≤ most → other ≤ most
        → mapped most before one ≡ mapped most before other → one ≡ other }
{}

/// The way back is one: a number is found again from its code.
pub fn each_number_is_found_again()
    ensures { (most before number : ℕ) → before ≤ most → number ≤ most
        → unmapped most before (mapped most before number) ≡ number }
{}

/// Codes of at most `most` are those of one list of numbers.
pub fn codes_tell_one_list()
    ensures some { (most before : ℕ) (codes : List ℕ) → before ≤ most → All (λ code. code ≤ most) codes
        → (numbers : List ℕ) × HaveCodes most before codes numbers }
    ensures only { (most before : ℕ) (codes one other : List ℕ) → before ≤ most → HaveCodes most before codes one
        → HaveCodes most before codes other → one ≡ other }
    ensures within { (most before : ℕ) (codes numbers : List ℕ) → before ≤ most → HaveCodes most before codes numbers
        → All (λ code. code ≤ most) codes }
{}

/// Where the halves of the codes of a block come to no more than the nearer bound is from the number before it,
/// each of its numbers is as far from the one before it as the half of its code: none is told by its distance alone.
pub fn near_codes_are_not_folded()
    ensures { (most before code : ℕ) (codes : List ℕ) (number : ℕ) (numbers : List ℕ) → before ≤ most
        → HaveCodes most before (code ∷ codes) (number ∷ numbers) → halves (code ∷ codes) ≤ reach most before
        → (half code ≡ (number - before) + (before - number)) × (halves codes ≤ reach most number) }
{}

/// Worked: numbers of 8 bits after the reference 0, of 4 bits, and of 17 bits.
pub fn worked_codes()
    ensures eight_bits { codes_after 255 0 (1 ∷ 2 ∷ 255 ∷ []) ≡ 1 ∷ 2 ∷ 255 ∷ [] }
    ensures near_the_greatest { codes_after 15 4 (9 ∷ 0 ∷ 15 ∷ []) ≡ 9 ∷ 15 ∷ 15 ∷ [] }
    ensures both_sides { codes_after 131071 100000 (100001 ∷ 99999 ∷ 100000 ∷ 100002 ∷ 100000 ∷ 99990 ∷ 131071 ∷ []) ≡ 2 ∷ 3 ∷ 2 ∷ 4 ∷ 3 ∷ 19 ∷ 62162 ∷ [] }
{}

/// What is told of numbers tells no others: they are found again.
pub fn numbers_are_found_again()
    ensures { (c : coding.Coding) (entries : List Told) (numbers : List ℕ) → AreTold c entries numbers → numbers_told c 0 entries ≡ numbers }
{}

/// A run by its number covers the blocks that it was numbered for; one of more than 4 that ends with its room covers
/// all of that.
pub fn runs_cover_their_blocks()
    ensures numbered { (c : coding.Coding) (place blocks : ℕ) → 1 ≤ blocks → covered c place (Run (run_number blocks false)) ≡ blocks }
    ensures few { (c : coding.Coding) (place blocks : ℕ) → 1 ≤ blocks → blocks ≤ 4 → covered c place (Run (run_number blocks true)) ≡ blocks }
    ensures to_the_end { (c : coding.Coding) (place blocks : ℕ) → 4 < blocks → covered c place (Run (run_number blocks true)) ≡ run_room c place }
{}
