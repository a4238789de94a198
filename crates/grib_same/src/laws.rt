//! What follows from the definitions that the contracts cite: each law is the contract of a function that does nothing.

ghost use Rattle.std.specs.Prelude.{◌≡◌, ℕ, ◌+◌, ◌<◌, ◌≤◌, ◌↔◌, List, length, get_or, None, Some, IsTrue, true};
ghost use Rattle.grib_dyadic.specs.Value.{Exact, Same};
ghost use Rattle.grib_dyadic.specs.Meaning.{Meant, missing, SamePoint, SameMeaning};
ghost use Rattle.grib_same.specs.Sameness.{is_same, is_same_point, first_difference};

/// The tests say what the facts say.
pub fn tests_decide_sameness()
    ensures values { (v w : Exact) → (is_same v w ≡ true) ↔ Same v w }
    ensures points { (p q : Meant) → (is_same_point p q ≡ true) ↔ SamePoint p q }
{}

/// Two fields with as many points have no first difference exactly where they mean the same.
pub fn no_difference_is_the_same_meaning()
    ensures { (ps qs : List Meant) → length ps ≡ length qs → (first_difference ps qs ≡ None) ↔ SameMeaning ps qs }
{}

/// The first difference is the number, from 1, of a point that is not the same, and all points before it are.
pub fn a_difference_is_the_first()
    ensures within { (ps qs : List Meant) (n : ℕ) → first_difference ps qs ≡ Some (n + 1) → n < length ps }
    ensures differs { (ps qs : List Meant) (n : ℕ) → first_difference ps qs ≡ Some (n + 1)
        → ¬ (SamePoint (get_or ps n missing) (get_or qs n missing)) }
    ensures before { (ps qs : List Meant) (n k : ℕ) → first_difference ps qs ≡ Some (n + 1) → k < n
        → SamePoint (get_or ps k missing) (get_or qs k missing) }
    ensures counted { (ps qs : List Meant) → first_difference ps qs ≡ Some 0 → ⊥ }
{}
