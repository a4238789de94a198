//! The definitions tried on worked streams, which libaec reads too. It writes the same octets.

ghost use Rattle.std.specs.Prelude.{◌≡◌, List, [], ◌∷◌, ◌++◌, false, replicate};
ghost use Rattle.grib_bits.specs.Bits.{bits};
ghost use Rattle.grib_coding.specs.Streams.{coding, split_octets, mixed_octets, mixed_numbers, run_octets, short_octets, wide_octets, wide_numbers};
ghost use Rattle.grib_coding.specs.Written.{written};

/// What is written of the numbers of worked streams are these streams, up to the zeros that fill the last octets.
pub fn streams()
    ensures split { bits split_octets ≡ written (coding 8 14 8 128) (0 ∷ 1 ∷ 2 ∷ 255 ∷ []) ++ replicate 4 false }
    ensures mixed { bits mixed_octets ≡ written (coding 4 14 8 2) mixed_numbers ++ replicate 2 false }
    ensures run { bits run_octets ≡ written (coding 12 14 8 128) (replicate 48 7) ++ replicate 2 false }
    ensures short { bits short_octets ≡ written (coding 2 30 8 4) (0 ∷ 1 ∷ 3 ∷ 2 ∷ 0 ∷ 0 ∷ 0 ∷ 0 ∷ 3 ∷ 3 ∷ []) ++ replicate 3 false }
    ensures wide { bits wide_octets ≡ written (coding 17 14 8 1) wide_numbers ++ false ∷ [] }
{}
