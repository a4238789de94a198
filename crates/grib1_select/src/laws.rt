//! Laws over the definitions.

ghost use Rattle.std.specs.Prelude.{◌≡◌, ◌≢◌, ◌⊎◌, ℕ, ℤ, ◌+◌, ◌<◌, ◌≤◌, List, ◌++◌, ◌∷◌, length, None, All, IsTrue};
ghost use Rattle.grib_bits.specs.Octets.{octets};
ghost use Rattle.grib_keys.specs.declared.key1.Key1.{Key1};
ghost use Rattle.grib1_sections.specs.Message.{IsMessage1};
ghost use Rattle.grib1_sections.specs.Acceptance.{points_of, mask};
ghost use Rattle.grib1_sections.specs.Column.{column1_of};
ghost use Rattle.grib1_sections.specs.Keys.{key1_of, number1_of};
ghost use Rattle.grib_keys.specs.Keys1.{place_of, can_set1};
ghost use Rattle.grib1_select.specs.declared.condition.Change1.{Change1};
ghost use Rattle.grib1_select.specs.Changed.{with_keys1, set_fault1};

/// A message in which numbers of Section 1 that can be set got other values is an accepted message as long as it, with
/// the same column: the same points with the same values.
pub fn what_is_set_keeps_the_column()
    ensures accepted { (message : List ℕ) (changes : List Change1) → All (λ octet. octet < 256) message → IsMessage1 message
        → All (λ c. IsTrue (can_set1 c.key)) changes → IsMessage1 (with_keys1 message changes) }
    ensures as_long { (message : List ℕ) (changes : List Change1) → IsMessage1 message
        → length (with_keys1 message changes) ≡ length message }
    ensures column { (message : List ℕ) (changes : List Change1) → All (λ octet. octet < 256) message → IsMessage1 message
        → All (λ c. IsTrue (can_set1 c.key)) changes → column1_of (with_keys1 message changes) ≡ column1_of message }
{}

/// Where no change is at fault, a number that was set has the value that was set last for it, and each other number has
/// the value that it had. All octets but those of the numbers that were set stay.
pub fn what_is_set_stands()
    ensures set { (message : List ℕ) (before : List Change1) (change : Change1) (behind : List Change1) → IsMessage1 message
        → All (λ c. IsTrue (can_set1 c.key)) (before ++ change ∷ behind) → set_fault1 (before ++ change ∷ behind) ≡ None
        → All (λ c. c.key ≢ change.key) behind
        → number1_of (with_keys1 message (before ++ change ∷ behind)) change.key ≡ change.value }
    ensures others { (message : List ℕ) (changes : List Change1) (key : Key1) → IsMessage1 message
        → All (λ c. c.key ≢ key) changes → key1_of (with_keys1 message changes) key ≡ key1_of message key }
    ensures octets { (message : List ℕ) (changes : List Change1) (q : ℕ) → IsMessage1 message → 1 ≤ q
        → All (λ c. (q < 8 + (place_of c.key).first) ⊎ (8 + (place_of c.key).last < q)) changes
        → octets (with_keys1 message changes) q q ≡ octets message q q }
{}
