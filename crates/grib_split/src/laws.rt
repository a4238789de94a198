//! Laws over the definitions.

ghost use Rattle.std.specs.Prelude.{◌≡◌, ℕ, List, length};
ghost use Rattle.grib_base.specs.declared.code.Code as code_io;
ghost use Rattle.grib_packing.specs.Groupings.{Chosen};
ghost use Rattle.grib_split.specs.Least.{AreHeads, AreChoices, Follows};

/// Some codes have one chosen grouping.
pub fn one_grouping_is_chosen()
    ensures { (header : ℕ) (width : List code_io.Code → ℕ) (codes : List code_io.Code) (a b : List ℕ)
        → Chosen header width codes a → Chosen header width codes b → a ≡ b }
{}

/// What `least_choices` leaves can be handed to `lengths_of`.
pub fn heads_are_choices()
    ensures { (header : ℕ) (width : List code_io.Code → ℕ) (codes : List code_io.Code) (choices : List ℕ)
        → length choices ≡ length codes → AreHeads header width codes choices → AreChoices choices }
{}

/// What `lengths_of` gives for what `least_choices` leaves is the chosen grouping: none costs less, and of
/// several that cost the same it is the first.
pub fn lengths_of_heads_are_chosen()
    ensures { (header : ℕ) (width : List code_io.Code → ℕ) (codes : List code_io.Code) (choices lengths : List ℕ)
        → length choices ≡ length codes → AreHeads header width codes choices → Follows choices lengths
        → Chosen header width codes lengths }
{}
