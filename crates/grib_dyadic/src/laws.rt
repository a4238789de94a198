//! What follows from the definitions that the contracts cite: each law is the contract of a
//! function that does nothing.

ghost use Rattle.std.specs.Prelude.{◌≡◌, ℕ, ◌^◌, ◌<◌, ◌⊎◌, ℤ, pos};
ghost use Rattle.grib_dyadic.specs.Reference.{Binary, ieee, IsFinite, ibm, SameNumber, IsReduced, HasIeee, HasIbm};
ghost use Rattle.grib_dyadic.specs.Value.{Exact, value_of, Same};

/// What a finite binary32 word stands for has the sizes of `HasIeee`: a word that is read can be
/// written again.
pub fn ieee_words_can_be_written()
    ensures { (word : ℕ) (v : Binary) → word < 2 ^ 32 → IsFinite word → IsReduced v
        → SameNumber v (ieee word) → HasIeee v }
{}

/// What has the sizes of `HasIeee` has a finite binary32 word.
pub fn ieee_numbers_have_words()
    ensures { (v : Binary) → IsReduced v → HasIeee v
        → (word : ℕ) × (word < 2 ^ 32) × IsFinite word × SameNumber (ieee word) v }
{}

/// Two finite binary32 words for one number are equal, unless the number is zero.
pub fn ieee_words_are_unique()
    ensures { (w x : ℕ) → w < 2 ^ 32 → IsFinite w → x < 2 ^ 32 → IsFinite x
        → SameNumber (ieee w) (ieee x)
        → (w ≡ x) ⊎ (((ieee w).mantissa ≡ pos 0) × ((ieee x).mantissa ≡ pos 0)) }
{}

/// What a word of the IBM single form stands for has the sizes of `HasIbm`: a word that is read
/// can be written again.
pub fn ibm_words_can_be_written()
    ensures { (word : ℕ) (v : Binary) → word < 2 ^ 32 → IsReduced v → SameNumber v (ibm word)
        → HasIbm v }
{}

/// What has the sizes of `HasIbm` has a word of the IBM single form.
pub fn ibm_numbers_have_words()
    ensures { (v : Binary) → IsReduced v → HasIbm v
        → (word : ℕ) × (word < 2 ^ 32) × SameNumber (ibm word) v }
{}

/// A word of the IBM single form whose number has the sizes of `HasIeee` has a finite binary32
/// word for the same number.
pub fn ibm_words_have_ieee_words()
    ensures { (word : ℕ) (v : Binary) → word < 2 ^ 32 → IsReduced v → SameNumber v (ibm word)
        → HasIeee v
        → (x : ℕ) × (x < 2 ^ 32) × IsFinite x × SameNumber (ieee x) (ibm word) }
{}

/// A number has one reduced form.
pub fn reduced_forms_are_unique()
    ensures { (v w : Binary) → IsReduced v → IsReduced w → SameNumber v w → v ≡ w }
{}

/// To be the same number is an equivalence.
pub fn same_number_is_an_equivalence()
    ensures reflexive { (a : Binary) → SameNumber a a }
    ensures symmetric { (a b : Binary) → SameNumber a b → SameNumber b a }
    ensures transitive { (a b c : Binary) → SameNumber a b → SameNumber b c → SameNumber a c }
{}

/// To be the same value is an equivalence.
pub fn same_is_an_equivalence()
    ensures reflexive { (a : Exact) → Same a a }
    ensures symmetric { (a b : Exact) → Same a b → Same b a }
    ensures transitive { (a b c : Exact) → Same a b → Same b c → Same a c }
{}

/// Reference values that are the same number give each point the same value.
pub fn same_number_gives_same_value()
    ensures { (r s : Binary) (e d x : ℤ) → SameNumber r s
        → Same (value_of r e d x) (value_of s e d x) }
{}
