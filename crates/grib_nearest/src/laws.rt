//! What follows from the definitions that the contracts cite: each law is the contract of a function that does nothing.

ghost use Rattle.std.specs.Prelude.{◌≡◌, ℕ, ◌+◌, ◌-◌, ◌*◌, ◌^◌, ◌<◌, ◌≤◌, false};
ghost use Rattle.std.specs.Float.Ieee.{Format, binary32, binary64, to_bits, round};
ghost use Rattle.grib_nearest.specs.Nearest.{IsNearest, nearest_word};

/// The word that is worked out is nearest to the number, and no other is.
pub fn one_word_is_nearest()
    ensures nearest { (f : Format) (n d : ℕ) → 0 < d → IsNearest f n d (nearest_word f n d) }
    ensures only { (f : Format) (n d word : ℕ) → 0 < d → IsNearest f n d word → word ≡ nearest_word f n d }
{}

/// It is the word of what an operation of a machine with the exact result `n / d` gives.
pub fn machines_round_so()
    ensures { (f : Format) (n d : ℕ) → 0 < d → nearest_word f n d ≡ to_bits f (round f false n d) }
{}

/// Words of binary64. They were worked out with Python: `struct.pack(">d", n / d)`, which rounds the exact quotient of whole
/// numbers.
pub fn worked_doubles()
    ensures tenth { nearest_word binary64 1 10 ≡ 0x3fb9_9999_9999_999a }
    ensures third { nearest_word binary64 1 3 ≡ 0x3fd5_5555_5555_5555 }
    ensures one { nearest_word binary64 1 1 ≡ 0x3ff0_0000_0000_0000 }
    ensures zero { nearest_word binary64 0 7 ≡ 0 }
    ensures least { nearest_word binary64 1 (2 ^ 1074) ≡ 1 }
    ensures half_of_least { nearest_word binary64 1 (2 ^ 1075) ≡ 0 }
    ensures above_half { nearest_word binary64 (10 ^ 20 + 1) (10 ^ 20 * 2 ^ 1075) ≡ 1 }
    ensures least_normal { nearest_word binary64 1 (2 ^ 1022) ≡ 0x0010_0000_0000_0000 }
    ensures below_normal { nearest_word binary64 (2 ^ 53 - 1) (2 ^ 1075) ≡ 0x0010_0000_0000_0000 }
    ensures greatest { nearest_word binary64 (2 ^ 1024 - 2 ^ 971) 1 ≡ 0x7fef_ffff_ffff_ffff }
    ensures below_infinity { nearest_word binary64 (2 ^ 1024 - 2 ^ 970 - 1) 1 ≡ 0x7fef_ffff_ffff_ffff }
    ensures infinity { nearest_word binary64 (2 ^ 1024 - 2 ^ 970) 1 ≡ 0x7ff0_0000_0000_0000 }
    ensures large { nearest_word binary64 (10 ^ 400) 1 ≡ 0x7ff0_0000_0000_0000 }
    ensures tie_down { nearest_word binary64 (2 ^ 53 + 1) 1 ≡ 0x4340_0000_0000_0000 }
    ensures tie_up { nearest_word binary64 (2 ^ 53 + 3) 1 ≡ 0x4340_0000_0000_0002 }
{}

/// Words of binary32.
pub fn worked_singles()
    ensures tenth { nearest_word binary32 1 10 ≡ 0x3dcc_cccd }
    ensures third { nearest_word binary32 1 3 ≡ 0x3eaa_aaab }
    ensures tie { nearest_word binary32 16777217 1 ≡ 0x4b80_0000 }
    ensures tie_up { nearest_word binary32 16777219 1 ≡ 0x4b80_0002 }
    ensures least { nearest_word binary32 1 (2 ^ 149) ≡ 1 }
    ensures half_of_least { nearest_word binary32 1 (2 ^ 150) ≡ 0 }
    ensures below_infinity { nearest_word binary32 (2 ^ 128 - 2 ^ 103 - 1) 1 ≡ 0x7f7f_ffff }
    ensures infinity { nearest_word binary32 (2 ^ 128 - 2 ^ 103) 1 ≡ 0x7f80_0000 }
{}
