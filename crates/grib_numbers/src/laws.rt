//! The definitions, tried on texts.

ghost use Rattle.std.specs.Prelude.{◌≡◌, codes, pos, neg_ℤ, Some, None};
ghost use Rattle.grib_numbers.specs.Degrees.{degrees_of};

/// Texts that write degrees.
pub fn worked_degrees()
    ensures whole { degrees_of (codes "52") ≡ Some (pos 52000000) }
    ensures west { degrees_of (codes "-0.5") ≡ Some (neg_ℤ (pos 500000)) }
    ensures six { degrees_of (codes "12.345678") ≡ Some (pos 12345678) }
    ensures zeros { degrees_of (codes "0.050") ≡ Some (pos 50000) }
    ensures zero { degrees_of (codes "-0") ≡ Some (pos 0) }
    ensures round { degrees_of (codes "360") ≡ Some (pos 360000000) }
{}

/// Texts that write none.
pub fn worked_faults()
    ensures nothing { degrees_of (codes "") ≡ None }
    ensures sign_alone { degrees_of (codes "-") ≡ None }
    ensures plus { degrees_of (codes "+5") ≡ None }
    ensures leading_zero { degrees_of (codes "05") ≡ None }
    ensures no_digits { degrees_of (codes "5.") ≡ None }
    ensures no_whole { degrees_of (codes ".5") ≡ None }
    ensures seven { degrees_of (codes "1.2345678") ≡ None }
    ensures signed_digits { degrees_of (codes "1.+5") ≡ None }
    ensures two_points { degrees_of (codes "1.2.3") ≡ None }
    ensures letters { degrees_of (codes "5N") ≡ None }
    ensures large { degrees_of (codes "361") ≡ None }
    ensures second_sign { degrees_of (codes "--5") ≡ None }
{}
