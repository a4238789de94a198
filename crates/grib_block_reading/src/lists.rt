//! Numbers one after another.

ghost use Rattle.std.specs.Prelude.{◌≡◌, ℕ, ◌^◌, ◌<◌, ◌≤◌, length, MatchOption, All};
ghost use Rattle.grib_coding.specs.Reading.{front_list, front_number, front_sequence, Found, Ended};
ghost use Rattle.grib_block_reading.specs.Fronts.{LowFound};

use crate::bits_left::{Ahead, BitsLeft};

/// Reads sequences, as many as there is room for.
pub(crate) fn read_sequences(bits: &mut BitsLeft<'_>, numbers: &mut [u64]) -> Option<()>
    ensures found { MatchOption result (front_list front_sequence (length numbers.old) bits.old ≡ Ended)
        (λ _. front_list front_sequence (length numbers.old) bits.old ≡ Found numbers.new bits.new) }
    ensures short { MatchOption result (Unit {0}) (λ _. All (λ number. number < 2 ^ 35) numbers.new) }
{
    let mut ahead = Ahead { word: 0, count: 0 };
    for number in numbers.iter_mut() {
        *number = bits.next_sequence(&mut ahead)?;
    }
    Some(())
}

/// Reads numbers of `width` bits, as many as there is room for.
pub(crate) fn read_numbers(bits: &mut BitsLeft<'_>, width: u32, numbers: &mut [u64]) -> Option<()>
    requires { width ≤ 64 }
    ensures { MatchOption result (front_list (front_number width) (length numbers.old) bits.old ≡ Ended)
        (λ _. front_list (front_number width) (length numbers.old) bits.old ≡ Found numbers.new bits.new) }
{
    for number in numbers.iter_mut() {
        *number = bits.number(width)?;
    }
    Some(())
}

/// Reads the `k` low bits of codes that were divided by 2 to the `k`.
pub(crate) fn read_low_bits(bits: &mut BitsLeft<'_>, k: u32, codes: &mut [u64]) -> Option<()>
    requires k { k ≤ 29 }
    requires short { All (λ code. code < 2 ^ 35) codes.old }
    ensures { MatchOption result (front_list (front_number k) (length codes.old) bits.old ≡ Ended)
        (λ _. LowFound k bits.old codes.old codes.new bits.new) }
{
    for code in codes.iter_mut() {
        let low = bits.number(k)?;
        *code = (*code << k) + low;
    }
    Some(())
}
