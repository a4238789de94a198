//! Laws over the definitions.

ghost use Rattle.std.specs.Prelude.{◌≡◌, ℕ, List, ℤ};
ghost use Rattle.grib_packing.specs.Differences.{Differenced, Descriptors, undone, descriptors_of, difference_codes};
ghost use Rattle.grib_complex_reading.specs.Order.{IsOrder};

/// Codes of order 1 or 2 tell one list of numbers, and it is the one that `undone` computes.
pub fn codes_tell_one_list()
    ensures is_told { (d : Descriptors) (codes : List ℕ) → IsOrder d.order
        → Differenced d.order d.first d.second d.minimum codes (undone d codes) }
    ensures the_only_one { (d : Descriptors) (codes : List ℕ) (xs : List ℤ) → IsOrder d.order
        → Differenced d.order d.first d.second d.minimum codes xs → xs ≡ undone d codes }
{}

/// Numbers are told again by their differences of order 1 or 2.
pub fn differences_tell_their_numbers()
    ensures { (order : ℕ) (xs : List ℤ) → IsOrder order
        → undone (descriptors_of order xs) (difference_codes order xs) ≡ xs }
{}
