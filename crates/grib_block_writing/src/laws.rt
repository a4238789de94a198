//! Laws over the definitions.

ghost use Rattle.std.specs.Prelude.{◌≡◌, ℕ, ◌+◌, ◌%◌, ◌≤◌, List, ◌∷◌, ◌++◌, Bool, false, Option, All, length, get_or, sum};
ghost use Rattle.grib_coding.specs.declared.coding.Coding.{Coding};
ghost use Rattle.grib_coding.specs.Coding.{Fits, is_padded, greatest};
ghost use Rattle.grib_coding.specs.Reading.{decoded, read_as, coded_of};
ghost use Rattle.grib_coding.specs.declared.choice.Choice.{Choice};
ghost use Rattle.grib_coding.specs.Choices.{IsOption, bits_as, chosen};
ghost use Rattle.grib_coding.specs.Written.{chosen_item, coded_bits, item_as, skip_of, written};
ghost use Rattle.grib_block_writing.specs.Splits.{split_bits};
ghost use Rattle.grib_block_writing.specs.Steps.{run_size, sizes_of};

/// What is written of numbers is read as these numbers, whatever follows it.
pub fn what_is_written_is_read_back()
    ensures { (c : Coding) (numbers : List ℕ) (rest : List Bool) → Fits c → is_padded c ≡ false → All (λ number. number ≤ greatest c) numbers
        → decoded c (length numbers) (written c numbers ++ rest) ≡ read_as c numbers }
{}

/// The item that a block is written as has no more bits than any other that it can be. A reference stands for a code of 0.
pub fn no_item_has_fewer_bits()
    ensures { (c : Coding) (reference : Option ℕ) (codes : List ℕ) (choice : Choice) → Fits c → length codes ≡ c.block
        → (skip_of reference ≡ 1 → get_or codes 0 0 ≡ 0) → IsOption c choice
        → length (coded_bits c (coded_of reference (chosen_item c reference codes)))
        ≤ length (coded_bits c (coded_of reference (item_as choice (skip_of reference) codes))) }
{}

/// One run has no more bits than several that cover its blocks, of which the last ends where it ends.
pub fn no_pieces_have_fewer_bits()
    ensures { (c : Coding) (blocks : ℕ) (runs : List ℕ) (ends : Bool) → All (λ number. 1 ≤ number) (blocks ∷ runs)
        → run_size c (sum (blocks ∷ runs)) ends ≤ sizes_of c (blocks ∷ runs) ends }
{}

/// No item that a block can be has fewer bits than the chosen one.
pub fn none_has_fewer_bits()
    ensures { (c : Coding) (skip : ℕ) (codes : List ℕ) (choice : Choice) → IsOption c choice
        → bits_as c skip codes (chosen c skip codes) ≤ bits_as c skip codes choice }
{}

/// How much the bits of a block rise with one low bit more never falls. So a walk from any number of low bits, up while
/// they fall or else down while they fall, ends at the fewest.
pub fn bits_fall_and_then_rise()
    ensures { (kept k : ℕ) (codes : List ℕ)
        → split_bits kept codes (k + 1) + split_bits kept codes (k + 1) ≤ split_bits kept codes k + split_bits kept codes (k + 2) }
{}
