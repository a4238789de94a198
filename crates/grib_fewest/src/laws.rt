//! Laws over the definitions.

ghost use Rattle.std.specs.Prelude.{◌≡◌, ℕ, ◌*◌, ◌≤◌, List, ◌++◌, Bool, false, All, length};
ghost use Rattle.grib_coding.specs.declared.coding.Coding.{Coding};
ghost use Rattle.grib_coding.specs.Coding.{Fits, is_padded, greatest, block_count};
ghost use Rattle.grib_coding.specs.Reading.{Coded, decoded, read_as};
ghost use Rattle.grib_coding.specs.Written.{written};
ghost use Rattle.grib_fewest.specs.Lists.{Tells, AreReadable, AreInSegments, BeginWith, items_written, list_bits, plain_bits};

/// No list of items that tells the same numbers, and in which no run goes past its segment, has fewer bits than what is
/// written of them.
pub fn no_list_has_fewer_bits()
    ensures { (c : Coding) (numbers : List ℕ) (items : List Coded) → Fits c → Tells c numbers items → AreInSegments c 0 items
        → length (written c numbers) ≤ length (list_bits c items) }
{}

/// What is written is the bits of such a list, which is read too.
pub fn what_is_written_is_such_a_list()
    ensures bits { (c : Coding) (numbers : List ℕ) → written c numbers ≡ list_bits c (items_written c numbers) }
    ensures items { (c : Coding) (numbers : List ℕ) → Fits c → All (λ number. number ≤ greatest c) numbers
        → Tells c numbers (items_written c numbers) × AreInSegments c 0 (items_written c numbers) × AreReadable c 0 (items_written c numbers) }
{}

/// A list of items that tells numbers, and is read, is read as these numbers, whatever follows its bits.
pub fn such_a_list_is_read()
    ensures { (c : Coding) (numbers : List ℕ) (items : List Coded) (rest : List Bool) → Fits c → is_padded c ≡ false
        → All (λ number. number ≤ greatest c) numbers → Tells c numbers items → AreReadable c 0 items
        → decoded c (length numbers) (list_bits c items ++ rest) ≡ read_as c numbers }
{}

/// What is read as numbers begins with the bits of such a list. So, if no run goes past its segment there, it is no shorter
/// than what is written of them.
pub fn nothing_that_is_read_is_shorter()
    ensures { (c : Coding) (numbers : List ℕ) (bits : List Bool) → Fits c → is_padded c ≡ false
        → decoded c (length numbers) bits ≡ read_as c numbers
        → (items : List Coded) × BeginWith c numbers bits items × (AreInSegments c 0 items → length (written c numbers) ≤ length bits) }
{}

/// What is written of numbers is no longer than if each block were told by its codes as they are.
pub fn what_is_written_is_no_longer_than_plain_blocks()
    ensures { (c : Coding) (numbers : List ℕ) → Fits c → All (λ number. number ≤ greatest c) numbers
        → length (written c numbers) ≤ block_count c (length numbers) * plain_bits c }
{}
