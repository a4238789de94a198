//! The definitions tried on worked streams, which libaec reads too.

ghost use Rattle.std.specs.Prelude.{◌≡◌, ℕ, ◌^◌, ◌<◌, List, [], ◌∷◌, ◌++◌, Bool, true, false, replicate, take, None, Some};
ghost use Rattle.grib_bits.specs.Bits.{bits, bits_of};
ghost use Rattle.grib_coding.specs.declared.fault.BlockFault.TheVariants.{Short, Block, Value};
ghost use Rattle.grib_coding.specs.declared.choice.Choice.TheVariants.{Plain as AsPlain, Second as AsSecond, Split as AsSplit};
ghost use Rattle.grib_coding.specs.declared.coding.Coding.{Coding};
ghost use Rattle.grib_coding.specs.Choices.{bits_as, chosen};
ghost use Rattle.grib_coding.specs.Coding.{greatest, identifier_width, block_count};
ghost use Rattle.grib_coding.specs.Items.{Item, IsItem, item_bits, pair_of, pair_number};
ghost use Rattle.grib_coding.specs.Reading.{decoded, read_as, fault_of, front_item, Found};
ghost use Rattle.grib_coding.specs.Streams.{coding, split_octets, mixed_octets, mixed_numbers, run_octets, short_octets, wide_octets, wide_numbers, long_run_octets, long_sequence_octets, longest_sequence_octets, great_code_octets, padded_octets};

/// Streams of each item, with and without references, are those of their numbers.
pub fn streams()
    ensures split { decoded (coding 8 14 8 128) 4 (bits split_octets) ≡ read_as (coding 8 14 8 128) (0 ∷ 1 ∷ 2 ∷ 255 ∷ []) }
    ensures mixed { decoded (coding 4 14 8 2) 28 (bits mixed_octets) ≡ read_as (coding 4 14 8 2) mixed_numbers }
    ensures run { decoded (coding 12 14 8 128) 48 (bits run_octets) ≡ read_as (coding 12 14 8 128) (replicate 48 7) }
    ensures short { decoded (coding 2 30 8 4) 10 (bits short_octets) ≡ read_as (coding 2 30 8 4) (0 ∷ 1 ∷ 3 ∷ 2 ∷ 0 ∷ 0 ∷ 0 ∷ 0 ∷ 3 ∷ 3 ∷ []) }
    ensures wide { decoded (coding 17 14 8 1) 8 (bits wide_octets) ≡ read_as (coding 17 14 8 1) wide_numbers }
    ensures padded { decoded (coding 4 46 8 1) 16 (bits padded_octets) ≡ read_as (coding 4 46 8 1) (replicate 8 5 ++ replicate 8 7) }
{}

/// A run past its interval, a sequence over 90 and a code over the greatest number are refused; a sequence of 90 and a
/// code over it that belongs to no value are not.
pub fn faults()
    ensures run { fault_of (decoded (coding 4 14 8 2) 16 (bits long_run_octets)) ≡ Some (Block 1) }
    ensures long_sequence { fault_of (decoded (coding 4 14 8 2) 8 (bits long_sequence_octets)) ≡ Some (Block 1) }
    ensures longest_sequence { fault_of (decoded (coding 4 14 8 2) 8 (bits longest_sequence_octets)) ≡ None }
    ensures great_code { fault_of (decoded (coding 4 14 8 2) 8 (bits great_code_octets)) ≡ Some (Value 2) }
    ensures of_no_value { fault_of (decoded (coding 4 14 8 2) 1 (bits great_code_octets)) ≡ None }
{}

/// Streams that are cut within an item end too soon.
pub fn cut_streams()
    ensures split { fault_of (decoded (coding 8 14 8 128) 4 (bits (take 7 split_octets))) ≡ Some Short }
    ensures nothing { fault_of (decoded (coding 8 14 8 128) 4 []) ≡ Some Short }
    ensures no_values { fault_of (decoded (coding 8 14 8 128) 0 []) ≡ None }
{}

/// Pairs of codes are counted from (0, 0) on, (1, 0), (0, 1), (2, 0) and so on, and each is told by its number.
pub fn pairs()
    ensures { (first second : ℕ) → pair_of (pair_number first second) ≡ record { first = first; second = second } }
{}

/// An item is read back from its bits, whatever follows them. So no item's bits are the beginning of another's.
pub fn items_are_read_back()
    ensures without_reference { (c : Coding) (item : Item) (rest : List Bool) → IsItem c 0 item
        → front_item c false (item_bits c [] item ++ rest) ≡ Found (record { reference = None; item = item }) rest }
    ensures with_reference { (c : Coding) (number : ℕ) (item : Item) (rest : List Bool) → number < 2 ^ c.bits → IsItem c 1 item
        → front_item c true (item_bits c (bits_of c.bits number) item ++ rest)
        ≡ Found (record { reference = Some number; item = item }) rest }
{}

/// What is chosen for worked blocks, and libaec chooses it too, and the bits.
pub fn choices()
    ensures second { chosen (coding 2 30 8 4) 0 (3 ∷ replicate 7 0) ≡ AsSecond }
    ensures plain { chosen (coding 2 30 8 4) 1 (0 ∷ 1 ∷ 3 ∷ 1 ∷ 3 ∷ 0 ∷ 0 ∷ 0 ∷ []) ≡ AsPlain }
    ensures least_split { chosen (coding 4 14 8 2) 1 (0 ∷ 0 ∷ 0 ∷ 2 ∷ 1 ∷ 0 ∷ 0 ∷ 0 ∷ []) ≡ AsSplit 0 }
    ensures split { chosen (coding 8 14 8 128) 1 (0 ∷ 1 ∷ 2 ∷ 255 ∷ replicate 4 0) ≡ AsSplit 5 }
    ensures split_bits { bits_as (coding 8 14 8 128) 1 (0 ∷ 1 ∷ 2 ∷ 255 ∷ replicate 4 0) (AsSplit 5) ≡ 49 }
    ensures wide { chosen (coding 17 14 8 1) 1 (0 ∷ 2 ∷ 3 ∷ 2 ∷ 4 ∷ 3 ∷ 19 ∷ 62162 ∷ []) ≡ AsSplit 13 }
{}

/// The coding that ecCodes writes of numbers of 12 bits, and one with short identifiers.
pub fn codings()
    ensures greatest { greatest (coding 12 14 32 128) ≡ 4095 }
    ensures width { identifier_width (coding 12 14 32 128) ≡ 4 }
    ensures blocks { block_count (coding 12 14 32 128) 33 ≡ 2 }
    ensures short_width { identifier_width (coding 2 30 8 4) ≡ 1 }
{}
