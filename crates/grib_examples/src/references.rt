//! The reference values of the worked messages, as exact numbers.

ghost use Rattle.std.specs.Prelude.{[], ◌∷◌, pos, negsuc};
ghost use Rattle.grib_dyadic.specs.Reference.{binary, ieee, ibm, SameNumber, HasIeee};
ghost use Rattle.grib_dyadic.specs.Value.{value_of, Same};
ghost use Rattle.grib_dyadic.specs.Meaning.{SameMeaning, valued, missing};
ghost use Rattle.grib2_message.specs.Fields.{meaning_of};
ghost use Rattle.grib_examples.specs.Messages.{m1, m2};
ghost use Rattle.grib_examples.specs.Values.{decimal_value};

/// C2ED4000 is -118.625 = -949 * 2^-3, and so is the IBM word C276A000.
pub fn worked_reference()
    ensures ieee { SameNumber (ieee 0xC2ED4000) (binary (negsuc 948) (negsuc 2)) }
    ensures ibm { SameNumber (ibm 0xC276A000) (binary (negsuc 948) (negsuc 2)) }
{}

/// Minus zero is zero.
pub fn minus_zero()
    ensures ieee { SameNumber (ieee 0x80000000) (binary (pos 0) (pos 0)) }
    ensures ibm { SameNumber (ibm 0x80000000) (binary (pos 0) (pos 0)) }
{}

/// The greatest IBM word that has a binary32.
pub fn greatest_common_word()
    ensures same { SameNumber (ibm 0x60FFFFFF) (ieee 0x7F7FFFFF) }
{}

/// IBM words whose numbers, 2^128 and 2^-260, have no binary32.
pub fn words_without_binary32()
    ensures too_great { SameNumber (ibm 0x61100000) (binary (pos 1) (pos 128)) }
    ensures too_great_for_binary32 { ¬ HasIeee (binary (pos 1) (pos 128)) }
    ensures too_small { SameNumber (ibm 0x00100000) (binary (pos 1) (negsuc 259)) }
    ensures too_small_for_binary32 { ¬ HasIeee (binary (pos 1) (negsuc 259)) }
{}

/// The values of the plain message: -11.8625, -11.85, -11.8375 and -8.675.
pub fn worked_values()
    ensures fourth { Same (value_of (ieee 0xC2ED4000) (negsuc 2) (pos 1) (pos 255)) (decimal_value (negsuc 8674) 3) }
    ensures field { SameMeaning (meaning_of m1 1)
        (valued (decimal_value (negsuc 118624) 4) ∷ valued (decimal_value (negsuc 1184) 2) ∷ valued (decimal_value (negsuc 118374) 4)
        ∷ valued (decimal_value (negsuc 8674) 3) ∷ []) }
{}

/// The first field of two: its second point is missing.
pub fn masked_values()
    ensures field { SameMeaning (meaning_of m2 1)
        (valued (decimal_value (negsuc 118624) 4) ∷ missing ∷ valued (decimal_value (negsuc 1184) 2) ∷ valued (decimal_value (negsuc 118374) 4) ∷ []) }
{}
